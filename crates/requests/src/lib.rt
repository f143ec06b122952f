// A list of play requests, ten bytes each, to the state of a box: a part of every box that takes them.
#![tactic(auto)]

ghost use Rattle.std.specs.Prelude.{◌≡◌, ◌+◌, ◌≤◌, ◌<◌, length, set};
ghost use Rattle.laws.specs.Made.{Made};
ghost use Rattle.marks.specs.Marks.{Valid, ValidIn};
ghost use Rattle.requests.specs.Presents.{ValidPresentPlayed, played_present, player_by};
ghost use Rattle.requests.specs.Steps.{ranked_by, marks_by};
ghost use Rattle.requests.specs.Slices.{big16_at, request_at, PlaysEach};

use allocate::keys::{keys_of, rank, rekey, sounding_after};
use envelope::AdsrSpec;
use error::AudioError;
use marks::{Mark, Marks, Present};
use play::places::place;
use start::Request;

// A state of the present rules, and the voice that the request got. Its contracts name the state, which a generic pair would not.
#[derive(Clone, Copy)]
pub struct PresentPlayed {
    pub outcome: Result<usize, AudioError>,
    pub present: Present,
}

pub fn play_request(p: Present, bytes: &[u8], request: Request) -> PresentPlayed
    requires { Valid p }
    ensures { Made ValidPresentPlayed (played_present p bytes.now request) result }
{
    let mut mixer = p.mixer;
    let old = p.marks;
    let voices = mixer.voices;
    let ranks = old.voices;
    let keys = keys_of(voices, ranks, true);
    let bank = mixer.bank;
    let policy = mixer.stealing_policy;
    match place(&keys, mixer.n, policy, bank, bytes, request, true) {
        Err(e) => PresentPlayed {
            outcome: Err(e),
            present: p,
        },
        Ok((i, v)) => {
            mixer.voices[i] = v;
            let marks = old.renewed(i);
            PresentPlayed {
                outcome: Ok(i),
                present: Present { mixer, marks },
            }
        }
    }
}

// The bank's writer reads such a number too; neither crate stands on the other.
fn big16_at(l: &[u8], k: usize) -> u16
    requires { k + 2 ≤ length l.now }
    ensures { result ≡ big16_at l.now k }
{
    u16::from_be_bytes([l[k], l[k + 1]])
}

#[tactic(auto, unfolding(crate::specs::Slices::request_at))]
fn request_at(l: &[u8], k: usize) -> Request
    requires { k + 10 ≤ length l.now }
    ensures { result ≡ request_at l.now k }
{
    let adsr = AdsrSpec {
        attack_ms: big16_at(l, k + 2),
        decay_ms: big16_at(l, k + 4),
        sustain_q8: l[k + 6],
        release_ms: big16_at(l, k + 7),
    };
    Request {
        id: big16_at(l, k),
        adsr,
        priority: l[k + 9],
    }
}

// A cell that is not there is told nothing.
fn tell(outcomes: &mut [u16], i: usize, cell: u16)
    ensures { outcomes.new ≡ set outcomes.old i cell }
{
    if i < outcomes.len() {
        outcomes[i] = cell;
    }
}

// The rules of these marks with the ranks of these keys.
fn ranked(rules: [Mark; 16], keys: [u16; 16]) -> [Mark; 16]
    ensures { result ≡ ranked_by keys rules }
{
    let mut out = rules;
    for (i, k) in out.iter_mut().enumerate() {
        k.rank = rank(keys[i]);
    }
    out
}

// What stands beside the voices after a list; document 01's box has no ranks. An enum in the place of `present` would say no more: the definitions of
// both boxes take a Bool.
fn marks_after(marks: Marks, rules: [Mark; 16], keys: [u16; 16], present: bool) -> Marks
    ensures { result ≡ marks_by present marks keys rules }
{
    if present {
        let voices = ranked(rules, keys);
        Marks { voices, ..marks }
    } else {
        marks
    }
}

// Plays every request of the slice, one after another, and tells each one's outcome in a cell of its own, as far as there are cells: the voice
// that it got, or 256 × its refusal's number and 255. Fewer than ten bytes at the slice's end are no request. Voices and their keys stay in locals,
// since a state handed over for each request would cost more in copies than the request; ranks stand in the keys alone, with how many voices sound,
// and are written beside the voices at the end. `present` for the box of the present rules.
pub fn play_each(
    p: Present,
    bytes: &[u8],
    requests: &[u8],
    outcomes: &mut [u16],
    present: bool,
) -> Present
    requires { ValidIn present p }
    ensures { PlaysEach (player_by present) (ValidIn present) p bytes.now requests.now outcomes.old result outcomes.new }
{
    let count = requests.len() / 10;
    let mut mixer = p.mixer;
    let marks = p.marks;
    let voices = mixer.voices;
    let mut rules = marks.voices;
    let mut keys = keys_of(voices, rules, present);
    let mut sounding = marks::below(rules, 16);
    // By place and not by `chunks_exact`: the place is the outcome's cell too, and what is read of a chunk is said of the whole slice.
    for i in 0..count {
        let request = request_at(requests, 10 * i);
        let bank = mixer.bank;
        let policy = mixer.stealing_policy;
        match place(&keys, mixer.n, policy, bank, bytes, request, present) {
            Err(e) => tell(outcomes, i, 256 * (u8::from(e) as u16) + 255),
            Ok((k, v)) => {
                sounding = sounding_after(sounding, keys[k], present);
                rekey(&mut keys, k, v.priority, sounding, present);
                rules[k] = Mark {
                    whole: true,
                    rank: 255,
                };
                mixer.voices[k] = v;
                tell(outcomes, i, k as u16);
            }
        }
    }
    let marks = marks_after(marks, rules, keys, present);
    Present { mixer, marks }
}
