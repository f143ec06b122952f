// How many frames surely pass before a voice can fall inaudible: where requests wait and no voice is free, so many frames can be made at once. A part of the
// box of the present rules (document 02, T-08).
#![tactic(auto)]

ghost use Rattle.std.specs.Prelude.{◌≡◌};
ghost use Rattle.mixer.specs.Mixers.{Valid};
ghost use Rattle.voice.specs.Voices as S;
ghost use Rattle.spans.specs.Spans.{samples_last, source_lasts, voice_lasts, fade_lasts, steady_frames};

use envelope::AdsrPhase;
use mixer::Mixer;
use voice::{Voice, VoiceSource};

// Stands for "never ends", as in a source's count of samples.
const FOREVER: u32 = 4294967295;

fn samples_last(left: u32) -> u32
    ensures { result ≡ samples_last left }
{
    left.saturating_add(1)
}

// Counts of frames: 1 for a source that gives none, since at least one frame is made.
fn source_lasts(source: VoiceSource) -> u32
    ensures { result ≡ source_lasts source }
{
    match source {
        VoiceSource::Idle => 1,
        VoiceSource::Tone(v) => samples_last(v.samples_left),
        VoiceSource::PolyBlep(v) => samples_last(v.samples_left()),
        VoiceSource::Fm(_) => FOREVER,
    }
}

fn voice_lasts(v: Voice) -> u32
    requires { S.Valid v }
    ensures { result ≡ voice_lasts v }
{
    let a = v.adsr;
    let phase = a.phase;
    let source = v.source;
    match phase {
        AdsrPhase::Idle => source_lasts(source),
        AdsrPhase::Release => a.phase_length_samples - a.samples_in_phase,
        AdsrPhase::Attack => FOREVER,
        AdsrPhase::Decay => FOREVER,
        AdsrPhase::Sustain => FOREVER,
    }
}

fn fade_lasts(m: Mixer) -> u32
    requires { Valid m }
    ensures { result ≡ fade_lasts m }
{
    if m.crossfade_active {
        frame::frames_left(m) as u32
    } else {
        FOREVER
    }
}

// Where all voices are audible, they are all audible after fewer frames than this, of any kind; at least 1.
pub fn steady_frames(m: Mixer) -> u32
    requires { Valid m }
    ensures { result ≡ steady_frames m }
{
    let mut least = fade_lasts(m);
    for v in &m.voices[..m.n] {
        least = least.min(voice_lasts(*v));
    }
    least
}
