// Beginning a fade.
ghost use Rattle.std.specs.Prelude.{◌≡◌, ◌≤◌};
ghost use Rattle.laws.specs.Made.{Made};
ghost use Rattle.error.specs.Told.{told, ValidTold};
ghost use Rattle.voice.specs.Voices as S;
ghost use Rattle.mixer.specs.Mixers.{Valid, ValidChanged};
ghost use Rattle.play.specs.Fades.{first_released, begun, faded_by, faded_under, faded_on};

use envelope::AdsrSpec;
use error::AudioError;
use mixer::{Changed, Mixer};
use start::Request;
use voice::Voice;

#[tactic(auto, using(laws::proofs::Made::made, crate::proofs::Laws::fading))]
fn first_released(m: Mixer) -> Mixer
    requires valid { Valid m }
    requires le_n { 2 ≤ m.n }
    ensures { Made Valid (first_released m) result }
{
    let mut out = m;
    let v = out.voices[0];
    out.voices[0] = v.release();
    out
}

// Voice 1 becomes v, and the fade to it begins.
#[tactic(auto, using(laws::proofs::Made::made, crate::proofs::Laws::fading), unfolding(crate::specs::Fades::begun))]
fn begun(m: Mixer, v: Voice, step: u8) -> Mixer
    requires valid { Valid m }
    requires le_n { (2 ≤ m.n) × (1 ≤ step) × S.Valid v }
    ensures { Made Valid (begun m v step) result }
{
    let mut out = Mixer {
        crossfade_t_q8: 0,
        crossfade_step_q8: step,
        crossfade_active: true,
        ..m
    };
    out.voices[1] = v;
    out
}

// With voice 0 released: the voice that started, or why none did.
#[tactic(auto, using(crate::proofs::Laws::fading), unfolding(crate::specs::Fades::faded_by))]
fn faded_by(m: Mixer, duration_ms: u16, started: Result<Voice, AudioError>) -> Changed
    requires valid { Valid m }
    requires le_n { (2 ≤ m.n) × ValidTold S.Valid (told started) }
    ensures { Made ValidChanged (faded_by m duration_ms (told started)) result }
{
    let config = m.config;
    let step = config::crossfade_step_q8(duration_ms, config.sample_rate_hz);
    match started {
        Err(e) => Changed {
            outcome: Err(e),
            mixer: m,
        },
        Ok(v) => Changed {
            outcome: Ok(()),
            mixer: begun(m, v, step),
        },
    }
}

// `parted` tells whether a refusal of the start has the present numbers; the definition of a start takes the same Bool, and an enum would say no more.
#[tactic(auto, using(crate::proofs::Laws::fading), unfolding(crate::specs::Fades::faded_under))]
pub fn crossfade_to(
    m: Mixer,
    bytes: &[u8],
    effect_id: u16,
    duration_ms: u16,
    adsr: AdsrSpec,
    parted: bool,
) -> Changed
    requires { Valid m }
    ensures { Made ValidChanged (faded_under parted m bytes.now effect_id duration_ms adsr) result }
{
    if m.n < 2 {
        return Changed {
            outcome: Err(AudioError::VoiceBusy),
            mixer: m,
        };
    }
    let bank = m.bank;
    match bank::find_by_id(bank, bytes, effect_id) {
        Err(e) => Changed {
            outcome: Err(e),
            mixer: m,
        },
        Ok(entry) => {
            let released = first_released(m);
            let started = start::start_entry(bank, bytes, entry, adsr, 128, parted);
            faded_by(released, duration_ms, started)
        }
    }
}

// The fade after which voice 0 sounds on: voice 1 is started first, so that a refusal changes nothing.
#[tactic(auto, using(crate::proofs::Laws::fading), unfolding(crate::specs::Fades::faded_on, crate::specs::Fades::faded_by))]
pub fn crossfade_sounding_on(
    m: Mixer,
    bytes: &[u8],
    effect_id: u16,
    duration_ms: u16,
    adsr: AdsrSpec,
) -> Changed
    requires { Valid m }
    ensures { Made ValidChanged (faded_on m bytes.now effect_id duration_ms adsr) result }
{
    if m.n < 2 {
        return Changed {
            outcome: Err(AudioError::VoiceBusy),
            mixer: m,
        };
    }
    let bank = m.bank;
    let request = Request {
        id: effect_id,
        adsr,
        priority: 128,
    };
    let started = start::start_request(bank, bytes, request, true);
    let fading = first_released(m);
    match started {
        Err(e) => Changed {
            outcome: Err(e),
            mixer: m,
        },
        Ok(_) => faded_by(fading, duration_ms, started),
    }
}
