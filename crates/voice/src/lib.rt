// One voice of the mixer: a source, an envelope, a gain, a priority and a pan.
#![tactic(auto)]

ghost use Rattle.std.specs.Prelude.{◌≡◌};
ghost use Rattle.laws.specs.Made.{Made};
ghost use Rattle.voice.specs.Voices.{Valid, ValidStep, silent_voice, with_gain, with_pan, triggered_voice, released_voice, stopped_voice, audible, ticked_voice, stepped_voice, stereo_step};

use envelope::{Adsr, AdsrSpec};
use fixed::Step;

mod blocks;
mod source;

pub use source::VoiceSource;

#[derive(Clone, Copy, Debug, PartialEq)]
pub struct Voice {
    pub source: VoiceSource,
    pub adsr: Adsr,
    pub gain_q8: u8,
    pub priority: u8,
    pub pan_q8: u8,
    pub sample_rate_hz: u32,
}

// `Valid self` stays a fact of the contracts: mixers hold voices and go by value, and a Copy struct that holds a struct with a model is not copied
// in a proof (tried with the PolyBLEP oscillator: the proof did not close).
impl Voice {
    #[tactic(auto, unfolding(crate::specs::Voices::silent_voice))]
    pub fn silent(sample_rate_hz: u32) -> Voice
        ensures { result ≡ silent_voice sample_rate_hz }
    {
        Voice {
            source: VoiceSource::Idle,
            adsr: Adsr::new(AdsrSpec::click(), sample_rate_hz),
            gain_q8: 255,
            priority: 0,
            pan_q8: 128,
            sample_rate_hz,
        }
    }

    #[tactic(auto, unfolding(crate::specs::Voices::with_gain))]
    pub fn set_gain_q8(self, gain_q8: u8) -> Voice
        ensures { result ≡ with_gain self gain_q8 }
    {
        Voice { gain_q8, ..self }
    }

    #[tactic(auto, unfolding(crate::specs::Voices::with_pan))]
    pub fn set_pan_q8(self, pan_q8: u8) -> Voice
        ensures { result ≡ with_pan self pan_q8 }
    {
        Voice { pan_q8, ..self }
    }

    #[tactic(auto, using(crate::proofs::Laws::keeps_valid), unfolding(crate::specs::Voices::triggered_voice))]
    pub fn trigger_adsr(self, spec: AdsrSpec) -> Voice
        requires { Valid self }
        ensures { Made Valid (triggered_voice self spec) result }
    {
        let adsr = Adsr::new(spec, self.sample_rate_hz).trigger();
        Voice { adsr, ..self }
    }

    #[tactic(auto, using(crate::proofs::Laws::keeps_valid), unfolding(crate::specs::Voices::released_voice))]
    pub fn release(self) -> Voice
        requires { Valid self }
        ensures { Made Valid (released_voice self) result }
    {
        let adsr = self.adsr.release();
        Voice { adsr, ..self }
    }

    #[tactic(auto, using(crate::proofs::Laws::keeps_valid), unfolding(crate::specs::Voices::stopped_voice))]
    pub fn stop_immediate(self) -> Voice
        requires { Valid self }
        ensures { Made Valid (stopped_voice self) result }
    {
        let adsr = Adsr::new(AdsrSpec::click(), self.sample_rate_hz);
        Voice {
            source: VoiceSource::Idle,
            adsr,
            ..self
        }
    }

    #[tactic(auto, unfolding(crate::specs::Voices::audible))]
    pub fn is_audible(self) -> bool
        ensures { result ≡ audible self }
    {
        self.source.is_active() || self.adsr.is_active()
    }

    // The envelope's tick; a voice that is then inaudible gets the idle source.
    #[tactic(auto, using(crate::proofs::Laws::keeps_valid, crate::proofs::Runs::ticks))]
    pub fn tick_envelope(self) -> Voice
        requires { Valid self }
        ensures { Made Valid (ticked_voice self) result }
    {
        let adsr = self.adsr.tick();
        let source = blocks::keep(self.source, self.source.is_active(), adsr);
        Voice {
            source,
            adsr,
            ..self
        }
    }

    #[tactic(auto, using(crate::proofs::Laws::keeps_valid), unfolding(crate::specs::Voices::stepped_voice))]
    pub fn next_sample(self) -> Step<Voice, Option<i8>>
        requires { Valid self }
        ensures { Made ValidStep (stepped_voice self) result }
    {
        let step = self.source.next_raw_sample();
        let voice = Voice {
            source: step.voice,
            ..self
        };
        let given = step.given.map(|raw| {
            let s = fixed::apply_document_01_gain(raw, self.adsr.level_q8);
            fixed::apply_document_01_gain(s, self.gain_q8)
        });
        Step { voice, given }
    }

    #[tactic(auto, using(crate::proofs::Laws::keeps_valid), unfolding(crate::specs::Voices::stereo_step))]
    pub fn next_stereo_sample(self) -> Step<Voice, Option<(i8, i8)>>
        requires { Valid self }
        ensures { Made ValidStep (stereo_step self) result }
    {
        let step = self.next_sample();
        let given = step.given.map(|s| {
            let gains = fixed::pan_to_gains_q8(self.pan_q8);
            let left = fixed::apply_document_01_gain(s, gains.left);
            let right = fixed::apply_document_01_gain(s, gains.right);
            (left, right)
        });
        Step {
            voice: step.voice,
            given,
        }
    }
}
