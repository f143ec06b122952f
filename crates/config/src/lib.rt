// What an engine is opened with, and the step of a fade.
#![tactic(auto)]

ghost use Rattle.std.specs.Prelude.{◌≡◌};
ghost use Rattle.config.specs.Config.{configured, default_duty, with_master_gain, fade_step};

use output::DutyMode;

pub const DEFAULT_SAMPLE_RATE_HZ: u32 = 16_000;

pub const DEFAULT_PWM_PERIOD: u16 = 1000;

#[derive(Clone, Copy, Debug, PartialEq, Eq)]
pub struct AudioConfig {
    pub sample_rate_hz: u32,
    pub pwm_period: u16,
    pub duty_mode: DutyMode,
    pub master_gain_q8: u8,
}

impl AudioConfig {
    pub fn new(sample_rate_hz: u32, pwm_period: u16, duty_mode: DutyMode) -> Self
        ensures { result ≡ configured sample_rate_hz pwm_period duty_mode }
    {
        Self {
            sample_rate_hz,
            pwm_period,
            duty_mode,
            master_gain_q8: 255,
        }
    }

    pub fn default_duty() -> Self
        ensures { result ≡ default_duty }
    {
        Self::new(
            DEFAULT_SAMPLE_RATE_HZ,
            DEFAULT_PWM_PERIOD,
            DutyMode::SigmaDelta,
        )
    }

    pub fn master_gain_q8(self, gain: u8) -> Self
        ensures { result ≡ with_master_gain self gain }
    {
        Self {
            master_gain_q8: gain,
            ..self
        }
    }
}

// By hand: a derived `default` would be another configuration.
impl Default for AudioConfig {
    ghost is_default = { λ config. config ≡ default_duty };

    fn default() -> AudioConfig {
        AudioConfig::default_duty()
    }
}

// The fade's step in 256ths.
pub fn crossfade_step_q8(duration_ms: u16, sample_rate_hz: u32) -> u8
    ensures { result ≡ fade_step duration_ms sample_rate_hz }
{
    let samples = u32::from(duration_ms).wrapping_mul(sample_rate_hz) / 1000;
    if samples == 0 {
        return 255;
    }
    255u32.div_ceil(samples) as u8
}
