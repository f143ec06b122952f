// The source's shorter ways to open a box: two voices, under the policy that stands where none is chosen.
ghost use Rattle.laws.specs.Made.{Made};
ghost use Rattle.config.specs.Config.{configured};
ghost use Rattle.entering.specs.Lined.{Valid};
ghost use Rattle.sounder.specs.Sounders.{Gives};
ghost use Rattle.sounder.specs.Calls.{opened_two, default_sounder};

use super::Sounder;
use config::AudioConfig;
use error::AudioError;
use mixer::VoiceStealingPolicy;
use output::DutyMode;

impl Sounder {
    pub fn new(config: AudioConfig) -> (Sounder, Result<(), AudioError>)
        ensures { Gives (opened_two config) result.1 result.0 }
    {
        Sounder::open(2, config, VoiceStealingPolicy::default())
    }

    pub fn from_sample_rate(
        sample_rate_hz: u32,
        pwm_period: u16,
        duty_mode: DutyMode,
    ) -> (Sounder, Result<(), AudioError>)
        ensures { Gives (opened_two (configured sample_rate_hz pwm_period duty_mode)) result.1 result.0 }
    {
        Sounder::new(AudioConfig::new(sample_rate_hz, pwm_period, duty_mode))
    }
}

// The source's: no place of the table turns its configuration down.
impl Default for Sounder {
    ghost is_default = { Made Valid default_sounder };

    fn default() -> Sounder {
        let (sounder, _) = Sounder::new(AudioConfig::default());
        sounder
    }
}
