// Requests that wait (document 02, T-08): a box that lives for one call is left requests under labels before it gives its frames.
ghost use Rattle.std.specs.Prelude.{◌≡◌, ◌+◌, ◌≤◌, length, set};
ghost use Rattle.output.specs.declared.DutyMode.TheVariants as M;
ghost use Rattle.requests.specs.Slices.{big16_at, request_at};
ghost use Rattle.exports_parts.specs.Told.{Answers};
ghost use Rattle.exports_parts.specs.Plays.{policy_of, settings, readied};
ghost use Rattle.exports_play.specs.Plays.{calls};
ghost use Rattle.exports.specs.Waits.{LeavesEach, dropped_cells, lent, waits_told};

use config::DEFAULT_PWM_PERIOD;
use envelope::AdsrSpec;
use error::AudioError;
use exports_parts::number_of;
use exports_play::ready;
use output::DutyMode;
use sounder::Sounder;
use start::Request;

fn big16_at(l: &[u8], k: usize) -> u16
    requires { k + 2 ≤ length l.now }
    ensures { result ≡ big16_at l.now k }
{
    u16::from_be_bytes([l[k], l[k + 1]])
}

#[tactic(auto, unfolding(requests::specs::Slices::request_at))]
fn request_at(l: &[u8], k: usize) -> Request
    requires { k + 10 ≤ length l.now }
    ensures { result ≡ request_at l.now k }
{
    let adsr = AdsrSpec {
        attack_ms: big16_at(l, k + 2),
        decay_ms: big16_at(l, k + 4),
        sustain_q8: l[k + 6],
        release_ms: big16_at(l, k + 7),
    };
    Request {
        id: big16_at(l, k),
        adsr,
        priority: l[k + 9],
    }
}

// A cell that is not there is told nothing. (Tried `get_mut`: the proof did not close.)
fn tell(numbers: &mut [u8], i: usize, number: u8)
    ensures { numbers.new ≡ set numbers.old i number }
{
    if i < numbers.len() {
        numbers[i] = number;
    }
}

// Leaves every request of the slice, one after another, and tells each one's number in a cell of its own, as far as there are cells. Fewer than twelve bytes at the
// slice's end are none.
fn leave_each(s: &mut Sounder, left: &[u8], numbers: &mut [u8])
    ensures { LeavesEach s.old left.now numbers.old s.new numbers.new }
{
    let count = left.len() / 12;
    for i in 0..count {
        let label = big16_at(left, 12 * i);
        let request = request_at(left, 12 * i + 2);
        let outcome = s.leave(label, request.id, request.adsr, request.priority);
        tell(numbers, i, number_of(outcome));
    }
}

fn dropped_cells(kept: Option<(AudioError, u16)>) -> [u16; 2]
    ensures { result ≡ dropped_cells kept }
{
    match kept {
        None => [0, 0],
        Some((e, label)) => [u16::from(u8::from(e)), label],
    }
}

// Plays the requests, leaves those of `left`, and fills a mono frame in each cell: each leaving's number, the labels that then wait with how many they are, and the number and label of the
// latest that was dropped.
#[unsafe(no_mangle)]
pub extern "C" fn birchjack_waiting_pcm_i16(
    n: usize,
    free_only: bool,
    master_gain_q8: u8,
    bytes: &[u8],
    sample_rate_hz: u32,
    effect_count: u16,
    requests: &[u8],
    left: &[u8],
    numbers: &mut [u8],
    out: &mut [i16],
    labels: &mut [u16; 32],
    count: &mut usize,
    dropped: &mut [u16; 2],
) -> u8
    ensures { Answers (waits_told (readied calls n (policy_of free_only) (settings sample_rate_hz 1000 M.Linear master_gain_q8) bytes.now effect_count) bytes.now requests.now left.now (lent numbers.old out.old labels.old count.old dropped.old)) (lent numbers.old out.old labels.old count.old dropped.old) result (lent numbers.new out.new labels.new count.new dropped.new) }
{
    let config = exports_parts::settings(
        sample_rate_hz,
        DEFAULT_PWM_PERIOD,
        DutyMode::Linear,
        master_gain_q8,
    );
    match ready(n, free_only, config, bytes, effect_count) {
        Err(e) => u8::from(e),
        Ok(mut s) => {
            s.play_all(bytes, requests);
            leave_each(&mut s, left, numbers);
            s.fill_pcm_i16_buffer(bytes, out);
            *labels = s.waiting_labels();
            *count = s.waiting_count();
            *dropped = dropped_cells(s.kept_refusal());
            0
        }
    }
}
