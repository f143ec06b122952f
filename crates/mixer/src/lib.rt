// The parts of a box: its state and each step on it. Fields are public, for our own crates; a box that is open to others keeps
// such a state in a private field.
#![tactic(auto)]

ghost use Rattle.std.specs.Prelude.{◌≡◌, count_by};
ghost use Rattle.laws.specs.Made.{Made};
ghost use Rattle.error.specs.Numbers.{number_of};
ghost use Rattle.voice.specs.Voices as S;
ghost use Rattle.mixer.specs.Mixers.{Valid, ValidChanged, default_policy, fresh, not_opened, opened, with_master_gain, stopped, audible_count, playing, voice_read, pan_read, panned, holding_bank, banked};

use bank::SoundBank;
use config::AudioConfig;
use error::AudioError;
use output::{DutyMode, PwmMapper};
use voice::Voice;

// How a voice is found for a request when all are audible.
#[derive(Clone, Copy)]
pub enum VoiceStealingPolicy {
    LowestPriorityOldest,
    FreeChannelOnly,
}

impl Default for VoiceStealingPolicy {
    ghost is_default = { λ policy. policy ≡ default_policy };

    fn default() -> VoiceStealingPolicy {
        VoiceStealingPolicy::LowestPriorityOldest
    }
}

#[derive(Clone, Copy)]
pub struct Mixer {
    pub n: usize,
    pub voices: [Voice; 16],
    pub bank: Option<SoundBank>,
    pub config: AudioConfig,
    pub mapper: PwmMapper,
    pub crossfade_t_q8: u8,
    pub crossfade_step_q8: u8,
    pub crossfade_active: bool,
    pub stealing_policy: VoiceStealingPolicy,
}

// What a call that may be refused gives back.
#[derive(Clone, Copy)]
pub struct Changed {
    pub outcome: Result<(), AudioError>,
    pub mixer: Mixer,
}

// n voices, silent at the configuration's rate.
#[tactic(auto, unfolding(crate::specs::Mixers::fresh))]
fn fresh(n: usize, config: AudioConfig, policy: VoiceStealingPolicy) -> Mixer
    ensures { result ≡ fresh n config policy }
{
    Mixer {
        n,
        voices: [Voice::silent(config.sample_rate_hz); 16],
        bank: None,
        config,
        mapper: PwmMapper::new(config.duty_mode),
        crossfade_t_q8: 0,
        crossfade_step_q8: 0,
        crossfade_active: false,
        stealing_policy: policy,
    }
}

// What stands where opening is refused.
#[tactic(auto, using(laws::proofs::Made::made, crate::proofs::Laws::valid_states))]
fn closed(error: AudioError) -> Changed
    ensures { Made ValidChanged (not_opened (number_of error)) result }
{
    let none = AudioConfig {
        sample_rate_hz: 0,
        pwm_period: 2,
        duty_mode: DutyMode::Linear,
        master_gain_q8: 0,
    };
    Changed {
        outcome: Err(error),
        mixer: fresh(0, none, VoiceStealingPolicy::default()),
    }
}

fn audible_in(voices: &[Voice]) -> usize
    ensures { result ≡ count_by S.audible voices.now }
{
    voices.iter().filter(|v| v.is_audible()).count()
}

// `Valid self` stays a fact of the contracts: a `Present` holds a Mixer and goes by value, and a Copy struct that holds a struct with a model is not
// copied in a proof (tried with the parts of a Mixer: `voice_pan` did not close).
impl Mixer {
    #[tactic(auto, using(laws::proofs::Made::made, crate::proofs::Laws::valid_states), unfolding(crate::specs::Mixers::opened))]
    pub fn open(n: usize, config: AudioConfig, policy: VoiceStealingPolicy) -> Changed
        ensures { Made ValidChanged (opened n config policy) result }
    {
        if n > 16 {
            return closed(AudioError::VoiceCount);
        }
        if config.sample_rate_hz > 65537 {
            return closed(AudioError::BadRate);
        }
        if config.pwm_period < 2 {
            return closed(AudioError::BadPeriod);
        }
        Changed {
            outcome: Ok(()),
            mixer: fresh(n, config, policy),
        }
    }

    #[tactic(auto, using(laws::proofs::Made::made, crate::proofs::Laws::valid_states), unfolding(crate::specs::Mixers::with_master_gain))]
    pub fn set_master_gain_q8(self, gain: u8) -> Mixer
        requires { Valid self }
        ensures { Made Valid (with_master_gain self gain) result }
    {
        Mixer {
            config: self.config.master_gain_q8(gain),
            ..self
        }
    }

    pub fn active_voice_count(self) -> usize
        requires { Valid self }
        ensures { result ≡ audible_count self }
    {
        audible_in(&self.voices[..self.n])
    }

    #[tactic(auto, unfolding(crate::specs::Mixers::playing))]
    pub fn is_playing(self) -> bool
        requires { Valid self }
        ensures { result ≡ playing self }
    {
        self.active_voice_count() > 0
    }

    #[tactic(auto, unfolding(crate::specs::Mixers::voice_read))]
    pub fn voice(self, idx: usize) -> Option<Voice>
        requires { Valid self }
        ensures { result ≡ voice_read self idx }
    {
        self.voices[..self.n].get(idx).copied()
    }

    #[tactic(auto, unfolding(crate::specs::Mixers::pan_read))]
    pub fn voice_pan(self, idx: usize) -> Option<u8>
        requires { Valid self }
        ensures { result ≡ pan_read self idx }
    {
        self.voice(idx).map(|v| v.pan_q8)
    }

    #[tactic(auto, using(laws::proofs::Made::made, crate::proofs::Laws::valid_states), unfolding(crate::specs::Mixers::panned))]
    pub fn set_voice_pan(self, idx: usize, pan_q8: u8) -> Mixer
        requires { Valid self }
        ensures { Made Valid (panned self idx pan_q8) result }
    {
        let mut out = self;
        if idx < self.n {
            out.voices[idx] = out.voices[idx].set_pan_q8(pan_q8);
        }
        out
    }

    #[tactic(auto, using(laws::proofs::Made::made, crate::proofs::Laws::valid_states), unfolding(crate::specs::Mixers::stopped))]
    pub fn stop_all(self) -> Mixer
        requires { Valid self }
        ensures { Made Valid (stopped self) result }
    {
        let mut voices = self.voices;
        for voice in &mut voices[..self.n] {
            *voice = voice.stop_immediate();
        }
        Mixer {
            voices,
            mapper: self.mapper.reset(),
            crossfade_step_q8: 0,
            crossfade_active: false,
            ..self
        }
    }

    // The bank's bytes are len in number; they are lent to each call that reads them.
    #[tactic(auto, using(laws::proofs::Made::made, crate::proofs::Laws::valid_states), unfolding(crate::specs::Mixers::banked))]
    pub fn set_bank(self, sample_rate_hz: u32, effect_count: u16, len: usize) -> Changed
        requires { Valid self }
        ensures { Made ValidChanged (banked self sample_rate_hz effect_count len) result }
    {
        match SoundBank::new(sample_rate_hz, effect_count, len) {
            Err(e) => Changed {
                outcome: Err(e),
                mixer: self,
            },
            Ok(bank) => Changed {
                outcome: Ok(()),
                mixer: self.holding(bank),
            },
        }
    }

    // The bank's rate is the engine's, and every voice is silent at it.
    fn holding(self, bank: SoundBank) -> Mixer
        ensures { result ≡ holding_bank self bank }
    {
        let sample_rate_hz = bank.sample_rate_hz();
        Mixer {
            voices: [Voice::silent(sample_rate_hz); 16],
            bank: Some(bank),
            config: AudioConfig {
                sample_rate_hz,
                ..self.config
            },
            ..self
        }
    }
}
