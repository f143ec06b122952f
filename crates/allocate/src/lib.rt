// Which voice a request gets.
#![tactic(auto)]

ghost use Rattle.std.specs.Prelude.{◌≡◌, not, position};
ghost use Rattle.ranking.specs.Rule.{first_lowest};
ghost use Rattle.voice.specs.Voices.{audible};
ghost use Rattle.mixer.specs.Mixers.{Valid};
ghost use Rattle.allocate.specs.Allocation.{place_of, told_place, priority_of, allocated, allocated_oldest};
ghost use Rattle.marks.specs.Marks as K;

use marks::Present;
use mixer::{Mixer, VoiceStealingPolicy};
use voice::Voice;

pub mod keys;

fn first_free(voices: &[Voice]) -> Option<usize>
    ensures { result ≡ position (λ v. not (audible v)) voices.now }
{
    voices.iter().position(|v| !v.is_audible())
}

fn first_lowest(voices: &[Voice], priority: u8) -> Option<usize>
    ensures { told_place result ≡ place_of (first_lowest priority_of voices.now priority) }
{
    let mut best = None;
    let mut lowest = priority;
    for (i, v) in voices.iter().enumerate() {
        if v.priority < lowest {
            lowest = v.priority;
            best = Some(i);
        }
    }
    best
}

pub fn allocate_voice(m: Mixer, priority: u8) -> Option<usize>
    requires { Valid m }
    ensures { told_place result ≡ allocated m priority }
{
    let voices = &m.voices[..m.n];
    match first_free(voices) {
        Some(i) => Some(i),
        None => match m.stealing_policy {
            VoiceStealingPolicy::FreeChannelOnly => None,
            VoiceStealingPolicy::LowestPriorityOldest => first_lowest(voices, priority),
        },
    }
}

// By the present rules: of voices of equal lowest priority the oldest.
pub fn allocate_oldest(p: Present, priority: u8) -> Option<usize>
    requires { K.Valid p }
    ensures { told_place result ≡ allocated_oldest p priority }
{
    let m = p.mixer;
    let k = p.marks;
    let voices = m.voices;
    let marks = k.voices;
    let keys = keys::keys_of(voices, marks, true);
    let policy = m.stealing_policy;
    let bound = keys::bound(policy, priority);
    keys::lowest(&keys, m.n, bound)
}
