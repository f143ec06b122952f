// Band-limited oscillator: a binary32 phase, four waveforms with their edges rounded off, every operation in the source's
// order. corrections.rt has the corrections and the sine, waves.rt the waveforms, cast.rt the cut to eight bits,
// blocks.rt a block of samples at once, restores.rt an oscillator and a voice from their fields.
#![tactic(auto)]

ghost use Rattle.std.specs.Prelude.{◌≡◌};
ghost use Rattle.laws.specs.Made.{Made};
ghost use Rattle.polyblep.specs.Oscillators.{Valid, Stepped, ValidVoice, FloatStepped, VoiceStepped, step_of, default_waveform, default_oscillator, new_oscillator, at_frequency, at_rate, with_waveform, at_start, advance, silent_voice, started_voice, stopped_voice, carrier_of};

use fixed::Step;

mod blocks;
mod cast;
mod corrections;
mod restores;
mod waves;

pub use corrections::{poly_blamp, poly_blep};

#[derive(Clone, Copy, Debug, PartialEq, Eq)]
pub enum PolyBlepWaveform {
    Sine,
    Sawtooth,
    Square,
    Triangle,
}

impl Default for PolyBlepWaveform {
    ghost is_default = { λ w. w ≡ default_waveform };

    fn default() -> PolyBlepWaveform {
        PolyBlepWaveform::Sine
    }
}

// Private fields: an oscillator comes from the calls below, which keep its phase and step in their ranges.
#[derive(Clone, Copy, Debug, PartialEq)]
pub struct PolyBlepOscillator {
    phase: f32,
    phase_inc: f32,
    waveform: PolyBlepWaveform,
    freq_hz: u32,
    sample_rate_hz: u32,
}

#[tactic(auto, unfolding(crate::specs::Oscillators::step_of, crate::proofs::Literals::of_bits, crate::proofs::Literals::round))]
fn phase_step(freq_hz: u32, sample_rate_hz: u32) -> f32
    ensures { result ≡ step_of freq_hz sample_rate_hz }
{
    let hz = std::num::nearest_u32_to_f32(freq_hz);
    let rate = std::num::nearest_u32_to_f32(sample_rate_hz.max(1));
    fixed::clamp_f32(hz / rate, 0.0, 0.499)
}

#[tactic(auto, unfolding(crate::specs::Oscillators::advance, crate::proofs::Literals::of_bits, crate::proofs::Literals::round))]
fn advance_phase(phase: f32, phase_inc: f32) -> f32
    ensures { result ≡ advance phase phase_inc }
{
    let p = phase + phase_inc;
    if p >= 1.0 { p - 1.0 } else { p }
}

impl Default for PolyBlepOscillator {
    ghost is_default = { Made Valid default_oscillator };

    fn default() -> PolyBlepOscillator {
        PolyBlepOscillator::new(440, 48_000, PolyBlepWaveform::Sine)
    }
}

// `Valid self`, and a voice's `ValidVoice self`, stay facts of the contracts. A model was tried and proved here, but a Copy struct that holds one
// is not copied in a proof when used again, so the proofs of mixer, marks and allocate did not close.
impl PolyBlepOscillator {
    pub fn new(freq_hz: u32, sample_rate_hz: u32, waveform: PolyBlepWaveform) -> PolyBlepOscillator
        ensures { Made Valid (new_oscillator freq_hz sample_rate_hz waveform) result }
    {
        PolyBlepOscillator {
            phase: 0.0,
            phase_inc: phase_step(freq_hz, sample_rate_hz),
            waveform,
            freq_hz,
            sample_rate_hz: sample_rate_hz.max(1),
        }
    }

    #[tactic(auto, using(crate::proofs::Laws::keeps_valid), unfolding(crate::specs::Oscillators::at_frequency))]
    pub fn set_frequency(self, freq_hz: u32) -> PolyBlepOscillator
        requires { Valid self }
        ensures { Made Valid (at_frequency self freq_hz) result }
    {
        PolyBlepOscillator {
            phase_inc: phase_step(freq_hz, self.sample_rate_hz),
            freq_hz,
            ..self
        }
    }

    #[tactic(auto, using(crate::proofs::Laws::keeps_valid), unfolding(crate::specs::Oscillators::at_rate))]
    pub fn set_sample_rate(self, sample_rate_hz: u32) -> PolyBlepOscillator
        requires { Valid self }
        ensures { Made Valid (at_rate self sample_rate_hz) result }
    {
        PolyBlepOscillator {
            phase_inc: phase_step(self.freq_hz, sample_rate_hz),
            sample_rate_hz: sample_rate_hz.max(1),
            ..self
        }
    }

    #[tactic(auto, using(crate::proofs::Laws::keeps_valid), unfolding(crate::specs::Oscillators::with_waveform))]
    pub fn set_waveform(self, waveform: PolyBlepWaveform) -> PolyBlepOscillator
        requires { Valid self }
        ensures { Made Valid (with_waveform self waveform) result }
    {
        PolyBlepOscillator { waveform, ..self }
    }

    #[tactic(auto, using(crate::proofs::Laws::keeps_valid), unfolding(crate::specs::Oscillators::at_start, crate::proofs::Literals::of_bits, crate::proofs::Literals::round))]
    pub fn reset_phase(self) -> PolyBlepOscillator
        requires { Valid self }
        ensures { Made Valid (at_start self) result }
    {
        PolyBlepOscillator { phase: 0.0, ..self }
    }

    pub fn phase(self) -> f32
        ensures { result ≡ self.phase }
    {
        self.phase
    }

    pub fn phase_inc(self) -> f32
        ensures { result ≡ self.phase_inc }
    {
        self.phase_inc
    }

    pub fn waveform(self) -> PolyBlepWaveform
        ensures { result ≡ self.waveform }
    {
        self.waveform
    }

    pub fn frequency(self) -> u32
        ensures { result ≡ self.freq_hz }
    {
        self.freq_hz
    }

    pub fn sample_rate_hz(self) -> u32
        ensures { result ≡ self.sample_rate_hz }
    {
        self.sample_rate_hz
    }

    // The sample at the phase, and the phase one step on.
    #[tactic(auto, using(crate::proofs::Laws::keeps_valid), unfolding(crate::specs::Oscillators::advanced, crate::specs::Oscillators::sample_of))]
    pub fn next_sample(self) -> Step<PolyBlepOscillator, f32>
        requires { Valid self }
        ensures { Stepped self result }
    {
        let given = waves::sample_at(self.waveform, self.phase, self.phase_inc);
        let voice = PolyBlepOscillator {
            phase: advance_phase(self.phase, self.phase_inc),
            ..self
        };
        Step { voice, given }
    }
}

#[derive(Clone, Copy, Debug, PartialEq)]
pub struct PolyBlepVoice {
    osc: PolyBlepOscillator,
    samples_left: u32,
    active: bool, // a field of the source
}

impl Default for PolyBlepVoice {
    ghost is_default = { Made ValidVoice silent_voice };

    fn default() -> PolyBlepVoice {
        PolyBlepVoice::new()
    }
}

impl PolyBlepVoice {
    #[tactic(auto, using(crate::proofs::Laws::keeps_valid), unfolding(crate::specs::Oscillators::silent_voice, crate::proofs::Literals::of_bits, crate::proofs::Literals::round))]
    pub fn new() -> PolyBlepVoice
        ensures { Made ValidVoice silent_voice result }
    {
        let osc = PolyBlepOscillator {
            phase: 0.0,
            phase_inc: 0.0,
            waveform: PolyBlepWaveform::Sine,
            freq_hz: 440,
            sample_rate_hz: 48_000,
        };
        PolyBlepVoice {
            osc,
            samples_left: 0,
            active: false,
        }
    }

    // The source starts a voice that it has; nothing of that voice is kept.
    #[tactic(auto, using(crate::proofs::Laws::keeps_valid), unfolding(crate::specs::Oscillators::started_voice))]
    pub fn start(
        freq_hz: u32,
        duration_ms: u16,
        waveform: PolyBlepWaveform,
        sample_rate_hz: u32,
    ) -> PolyBlepVoice
        ensures { Made ValidVoice (started_voice freq_hz duration_ms waveform sample_rate_hz) result }
    {
        let osc = PolyBlepOscillator::new(freq_hz, sample_rate_hz, waveform);
        PolyBlepVoice {
            osc,
            samples_left: tone::duration_samples(duration_ms, sample_rate_hz),
            active: true,
        }
    }

    #[tactic(auto, using(crate::proofs::Laws::keeps_valid), unfolding(crate::specs::Oscillators::stopped_voice))]
    pub fn stop(self) -> PolyBlepVoice
        requires { ValidVoice self }
        ensures { Made ValidVoice (stopped_voice self) result }
    {
        PolyBlepVoice {
            samples_left: 0,
            active: false,
            ..self
        }
    }

    pub fn is_active(self) -> bool
        ensures { result ≡ self.active }
    {
        self.active
    }

    pub fn samples_left(self) -> u32
        ensures { result ≡ self.samples_left }
    {
        self.samples_left
    }

    pub fn oscillator(self) -> PolyBlepOscillator
        ensures { result ≡ self.osc }
    {
        self.osc
    }

    #[tactic(auto, unfolding(crate::specs::Oscillators::carrier_of))]
    pub fn carrier_hz(self) -> u32
        ensures { result ≡ carrier_of self }
    {
        if self.active { self.osc.freq_hz } else { 0 }
    }

    #[tactic(auto, using(crate::proofs::Laws::keeps_valid), unfolding(crate::specs::Oscillators::stepped_voice, crate::specs::Oscillators::float_given))]
    pub fn next_sample_f32(self) -> Step<PolyBlepVoice, Option<f32>>
        requires { ValidVoice self }
        ensures { FloatStepped self result }
    {
        if !self.active {
            return Step {
                voice: self,
                given: None,
            };
        }
        if self.samples_left == 0 {
            let voice = PolyBlepVoice {
                active: false,
                ..self
            };
            return Step { voice, given: None };
        }
        let step = self.osc.next_sample();
        let voice = PolyBlepVoice {
            osc: step.voice,
            samples_left: tone::one_less(self.samples_left),
            ..self
        };
        Step {
            voice,
            given: Some(step.given),
        }
    }

    pub fn next_sample(self) -> Step<PolyBlepVoice, Option<i8>>
        requires { ValidVoice self }
        ensures { VoiceStepped self result }
    {
        let step = self.next_sample_f32();
        Step {
            voice: step.voice,
            given: step.given.map(cast::truncated),
        }
    }
}
