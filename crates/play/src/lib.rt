// The calls that start a voice: play requests, tones, fades.
#![tactic(auto)]

ghost use Rattle.std.specs.Prelude.{◌≡◌};
ghost use Rattle.laws.specs.Made.{Made};
ghost use Rattle.voice.specs.Voices as S;
ghost use Rattle.mixer.specs.Mixers.{Valid};
ghost use Rattle.error.specs.Numbers.{number_of};
ghost use Rattle.play.specs.Plays.{ValidPlayed, not_played, played, first_sounding, toned, poly_bleped};

use error::AudioError;
use mixer::Mixer;
use polyblep::PolyBlepWaveform;
use start::Request;
use tone::Waveform;
use voice::Voice;

pub mod fades;
pub mod places;

// A state and the voice that a request got. Its contracts name the state, which a generic pair would not.
#[derive(Clone, Copy)]
pub struct Played {
    pub outcome: Result<usize, AudioError>,
    pub mixer: Mixer,
}

// `Valid m` stands in each contract and in no `impl Model`: a Copy struct holds a mixer's state and is passed by value and used again, which a proof does
// not follow where a part has a model.

// Voice 0, if there is one, becomes v.
#[tactic(auto, using(laws::proofs::Made::made, crate::proofs::Laws::sounding))]
fn first_sounding(m: Mixer, v: Voice) -> Mixer
    requires valid { Valid m }
    requires valid_2 { S.Valid v }
    ensures { Made Valid (first_sounding m v) result }
{
    let mut out = m;
    if m.n > 0 {
        out.voices[0] = v;
    }
    out
}

fn refused(m: Mixer, error: AudioError) -> Played
    ensures { result ≡ not_played m (number_of error) }
{
    Played {
        outcome: Err(error),
        mixer: m,
    }
}

#[tactic(auto, using(laws::proofs::Made::made, crate::proofs::Laws::placing), unfolding(crate::specs::Plays::played))]
pub fn play_request(m: Mixer, bytes: &[u8], request: Request) -> Played
    requires { Valid m }
    ensures { Made ValidPlayed (played m bytes.now request) result }
{
    let Some(i) = allocate::allocate_voice(m, request.priority) else {
        return refused(m, AudioError::VoiceBusy);
    };
    match start::start_request(m.bank, bytes, request, false) {
        Err(e) => refused(m, e),
        Ok(v) => {
            let mut mixer = m;
            mixer.voices[i] = v;
            Played {
                outcome: Ok(i),
                mixer,
            }
        }
    }
}

// At an engine's rate a tone starts: the other arm is not reached.
#[tactic(auto, using(crate::proofs::Laws::started), unfolding(crate::specs::Plays::toned))]
pub fn play_tone(m: Mixer, freq_hz: u32, duration_ms: u16, waveform: Waveform) -> Mixer
    requires { Valid m }
    ensures { Made Valid (toned m freq_hz duration_ms waveform) result }
{
    match start::tone_voice(freq_hz, duration_ms, waveform, m.config.sample_rate_hz) {
        Ok(v) => first_sounding(m, v),
        Err(_) => m,
    }
}

#[tactic(auto, using(crate::proofs::Laws::started), unfolding(crate::specs::Plays::poly_bleped))]
pub fn play_polyblep(m: Mixer, freq_hz: u32, duration_ms: u16, waveform: PolyBlepWaveform) -> Mixer
    requires { Valid m }
    ensures { Made Valid (poly_bleped m freq_hz duration_ms waveform) result }
{
    match start::polyblep_voice(freq_hz, duration_ms, waveform, m.config.sample_rate_hz) {
        Ok(v) => first_sounding(m, v),
        Err(_) => m,
    }
}
