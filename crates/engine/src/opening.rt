// The source's shorter ways to open an engine: two voices, under the policy that stands where none is chosen.
// As `sounder` has them: a trait that gave them to both would have what opening makes for a ghost member, and be longer than these two lines.
ghost use Rattle.laws.specs.Made.{Made};
ghost use Rattle.config.specs.Config.{configured};
ghost use Rattle.mixer.specs.Mixers.{Valid, ValidChanged};
ghost use Rattle.engine.specs.Openings.{opened_two, default_engine};

use crate::AudioEngine;
use config::AudioConfig;
use error::AudioError;
use mixer::VoiceStealingPolicy;
use output::DutyMode;

impl AudioEngine {
    pub fn new(config: AudioConfig) -> (AudioEngine, Result<(), AudioError>)
        ensures { Made ValidChanged (opened_two config) (record { outcome = result.1; mixer = result.0 }) }
    {
        AudioEngine::open(2, config, VoiceStealingPolicy::default())
    }

    pub fn from_sample_rate(
        sample_rate_hz: u32,
        pwm_period: u16,
        duty_mode: DutyMode,
    ) -> (AudioEngine, Result<(), AudioError>)
        ensures { Made ValidChanged (opened_two (configured sample_rate_hz pwm_period duty_mode)) (record { outcome = result.1; mixer = result.0 }) }
    {
        AudioEngine::new(AudioConfig::new(sample_rate_hz, pwm_period, duty_mode))
    }
}

// The source's: no place of the table turns its configuration down.
impl Default for AudioEngine {
    ghost is_default = { Made Valid default_engine };

    #[tactic(auto, using(laws::proofs::Made::made), unfolding(mixer::specs::Mixers::opened))]
    fn default() -> AudioEngine {
        let (engine, _) = AudioEngine::new(AudioConfig::default());
        engine
    }
}
