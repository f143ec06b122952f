// Tone oscillator: a 32-bit phase that wraps, three waveforms, and a count of samples that may end it.
#![tactic(auto)]

ghost use Rattle.std.specs.Prelude.{◌≡◌, ◌<◌};
ghost use Rattle.tone.specs.Duration.{duration_of, less_one};
ghost use Rattle.tone.specs.Tones.{square, ramp, triangle, wave, silent_tone, started_tone, stopped_tone, carrier_of, stepped_tone};

use envelope::AdsrSpec;
use fixed::{Phase, Step};

mod blocks;

pub use blocks::{block_len, given_of, less};

#[derive(Clone, Copy, Debug, PartialEq, Eq)]
pub enum Waveform {
    Square,
    Sine,
    Triangle,
}

#[derive(Clone, Copy, Debug, PartialEq, Eq)]
pub struct ToneParams {
    pub freq_hz: u32,
    pub duration_ms: u16,
    pub waveform: Waveform,
    pub adsr: AdsrSpec,
}

#[derive(Clone, Copy, Debug, PartialEq, Eq)]
pub struct ToneVoice {
    pub phase: Phase,
    pub phase_inc: u32,
    pub waveform: Waveform,
    pub samples_left: u32,
    pub active: bool,
}

// How many samples a source lasts; u32::MAX stands for one that never ends. The product is of 32 bits, as the source's.
#[tactic(auto, unfolding(crate::specs::Duration::duration_of))]
pub fn duration_samples(duration_ms: u16, sample_rate_hz: u32) -> u32
    ensures { result ≡ duration_of duration_ms sample_rate_hz }
{
    if duration_ms == 0 {
        return u32::MAX;
    }
    let product = u64::from(duration_ms) * u64::from(sample_rate_hz) % 0x1_0000_0000;
    (product / 1000) as u32
}

// One sample fewer, unless the source never ends.
#[tactic(auto, unfolding(crate::specs::Duration::less_one, crate::specs::Blocks::less_by))]
pub fn one_less(samples_left: u32) -> u32
    ensures { result ≡ less_one samples_left }
{
    less(samples_left, 1)
}

// The rising half of the triangle, at 0..127; the falling half is its negative.
fn ramp_i8(x: u8) -> i8
    requires { x < 128 }
    ensures { result ≡ ramp x }
{
    (2 * i32::from(x) - 127) as i8
}

fn square_at(index: u8) -> i8
    ensures { result ≡ square index }
{
    if index < 128 { 127 } else { -127 }
}

fn triangle_at(index: u8) -> i8
    ensures { result ≡ triangle index }
{
    if index < 128 {
        ramp_i8(index)
    } else {
        -ramp_i8(index - 128)
    }
}

fn wave_at(waveform: Waveform, index: u8) -> i8
    ensures { result ≡ wave waveform index }
{
    match waveform {
        Waveform::Square => square_at(index),
        Waveform::Sine => fixed::sin_table(index),
        Waveform::Triangle => triangle_at(index),
    }
}

impl Default for ToneVoice {
    ghost is_default = { λ v. v ≡ silent_tone };

    fn default() -> ToneVoice {
        ToneVoice::new()
    }
}

impl ToneVoice {
    pub fn new() -> ToneVoice
        ensures { result ≡ silent_tone }
    {
        ToneVoice {
            phase: 0,
            phase_inc: 0,
            waveform: Waveform::Sine,
            samples_left: 0,
            active: false,
        }
    }

    // The source starts a voice that it has; nothing of that voice is kept.
    #[tactic(auto, unfolding(crate::specs::Tones::started_tone))]
    pub fn start(params: ToneParams, sample_rate_hz: u32) -> ToneVoice
        ensures { result ≡ started_tone params sample_rate_hz }
    {
        ToneVoice {
            phase: 0,
            phase_inc: fixed::hz_to_phase_inc(params.freq_hz, sample_rate_hz),
            waveform: params.waveform,
            samples_left: duration_samples(params.duration_ms, sample_rate_hz),
            active: true,
        }
    }

    #[tactic(auto, unfolding(crate::specs::Tones::stopped_tone))]
    pub fn stop(self) -> ToneVoice
        ensures { result ≡ stopped_tone self }
    {
        ToneVoice {
            samples_left: 0,
            active: false,
            ..self
        }
    }

    pub fn is_active(self) -> bool
        ensures { result ≡ self.active }
    {
        self.active
    }

    #[tactic(auto, unfolding(crate::specs::Tones::carrier_of))]
    pub fn carrier_hz(self, sample_rate_hz: u32) -> u32
        ensures { result ≡ carrier_of self sample_rate_hz }
    {
        if self.active {
            let product = u64::from(self.phase_inc) * u64::from(sample_rate_hz);
            (product >> 32) as u32
        } else {
            0
        }
    }

    #[tactic(auto, unfolding(crate::specs::Tones::stepped_tone))]
    pub fn next_sample(self) -> Step<ToneVoice, Option<i8>>
        ensures { result ≡ stepped_tone self }
    {
        if !self.active {
            return Step {
                voice: self,
                given: None,
            };
        }
        if self.samples_left == 0 {
            let voice = ToneVoice {
                active: false,
                ..self
            };
            return Step { voice, given: None };
        }
        let sample = wave_at(self.waveform, fixed::phase_index(self.phase));
        let voice = ToneVoice {
            phase: self.phase.wrapping_add(self.phase_inc),
            samples_left: one_less(self.samples_left),
            ..self
        };
        Step {
            voice,
            given: Some(sample),
        }
    }
}
