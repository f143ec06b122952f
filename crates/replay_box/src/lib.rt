// The box that a script has open: document 01's, or one of the present rules. Each call goes to it.
#![tactic(auto)]

ghost use Rattle.std.specs.Prelude.{◌≡◌, length};
ghost use Rattle.replay_box.specs.Boxes.{opened, panned, with_master_gain, stopped, banked};

use config::AudioConfig;
use engine::AudioEngine;
use error::AudioError;
use mixer::VoiceStealingPolicy;
use sounder::Sounder;

mod fills;
mod reads;
mod starts;
mod ticks;

// Document 01's rules, or the present ones.
#[derive(Clone, Copy, Debug, PartialEq, Eq)]
pub enum Rules {
    First,
    Present,
}

#[derive(Clone, Copy)]
pub enum OpenBox {
    Engine(AudioEngine),
    Sounder(Sounder),
}

impl OpenBox {
    #[tactic(auto, unfolding(crate::specs::Boxes::opened))]
    pub fn open(
        rules: Rules,
        n: usize,
        config: AudioConfig,
        policy: VoiceStealingPolicy,
    ) -> Result<OpenBox, AudioError>
        ensures { result ≡ opened rules n config policy }
    {
        match rules {
            Rules::First => {
                let (engine, outcome) = AudioEngine::open(n, config, policy);
                outcome?;
                Ok(OpenBox::Engine(engine))
            }
            Rules::Present => {
                let (sounder, outcome) = Sounder::open(n, config, policy);
                outcome?;
                Ok(OpenBox::Sounder(sounder))
            }
        }
    }

    // A box of its own that is the same: what holds a model is `Copy`, but a proof does not follow it where it is handed over by value and used again.
    pub fn copied(&self) -> OpenBox
        ensures { result ≡ self.now }
    {
        match self {
            OpenBox::Engine(e) => OpenBox::Engine(*e),
            OpenBox::Sounder(s) => OpenBox::Sounder(*s),
        }
    }

    #[tactic(auto, unfolding(crate::specs::Boxes::panned))]
    pub fn set_voice_pan(&mut self, idx: usize, pan_q8: u8)
        ensures { self.new ≡ panned self.old idx pan_q8 }
    {
        match self {
            OpenBox::Engine(e) => e.set_voice_pan(idx, pan_q8),
            OpenBox::Sounder(s) => s.set_voice_pan(idx, pan_q8),
        }
    }

    #[tactic(auto, unfolding(crate::specs::Boxes::with_master_gain))]
    pub fn set_master_gain_q8(&mut self, gain: u8)
        ensures { self.new ≡ with_master_gain self.old gain }
    {
        match self {
            OpenBox::Engine(e) => e.set_master_gain_q8(gain),
            OpenBox::Sounder(s) => s.set_master_gain_q8(gain),
        }
    }

    #[tactic(auto, unfolding(crate::specs::Boxes::stopped))]
    pub fn stop_all(&mut self)
        ensures { self.new ≡ stopped self.old }
    {
        match self {
            OpenBox::Engine(e) => e.stop_all(),
            OpenBox::Sounder(s) => s.stop_all(),
        }
    }

    #[tactic(auto, unfolding(crate::specs::Boxes::banked))]
    pub fn set_bank(
        &mut self,
        bytes: &[u8],
        sample_rate_hz: u32,
        effect_count: u16,
    ) -> Result<(), AudioError>
        ensures { record { held = self.new; gave = result } ≡ banked self.old sample_rate_hz effect_count (length bytes.now) }
    {
        match self {
            OpenBox::Engine(e) => e.set_bank(bytes, sample_rate_hz, effect_count),
            OpenBox::Sounder(s) => s.set_bank(bytes, sample_rate_hz, effect_count),
        }
    }
}
