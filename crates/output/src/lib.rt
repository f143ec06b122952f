// From a sample to what the output pin takes: limiter, shapers, duty, and the scales of other converters.
#![tactic(auto)]

ghost use Rattle.std.specs.Prelude.{◌≡◌, ◌*◌, ◌/◌, ◌≤◌, pos, nat_abs, ◌+ℤ◌, ◌-ℤ◌, ◌*ℤ◌};
ghost use Rattle.std.specs.Int.Signed.{mag};
ghost use Rattle.laws.specs.Made.{Made};
ghost use Rattle.error.specs.Told.{told, Answered};
ghost use Rattle.output.specs.Shapers.{fresh, shaped, quantized, pulse, fresh2nd_order, shaped2nd_order, ValidShaper, ValidShaped};
ghost use Rattle.output.specs.Duty.{default_mode, duty, period_read, ValidPeriod, fresh_mapper, mapped, ValidMapper, ValidMapped};
ghost use Rattle.output.specs.Levels.{limited_bus, raised};

use error::AudioError;
use std::marker::Model;

// How a sample becomes a compare value.
#[derive(Clone, Copy, Debug, PartialEq, Eq)]
pub enum DutyMode {
    Linear,
    SigmaDelta,
    SigmaDelta2ndOrder,
}

// By hand: a derived `default` says nothing of its value.
impl Default for DutyMode {
    ghost is_default = { λ mode. mode ≡ default_mode };

    fn default() -> DutyMode {
        DutyMode::Linear
    }
}

// First-order shaper. Its sum may be any i32.
#[derive(Clone, Copy, Debug, PartialEq, Eq)]
pub struct SigmaDelta {
    pub integrator: i32,
}

// A shaper after a sample, and the sample that it gives.
#[derive(Clone, Copy, Debug, PartialEq, Eq)]
pub struct Shaped<S> {
    pub shaper: S,
    pub pcm: i8,
}

impl SigmaDelta {
    pub fn new() -> Self
        ensures { result ≡ fresh }
    {
        Self { integrator: 0 }
    }

    pub fn reset(self) -> Self
        ensures { result ≡ fresh }
    {
        Self::new()
    }

    pub fn shape(self, pcm: i8) -> Shaped<SigmaDelta>
        ensures { result ≡ shaped self pcm }
    {
        let sum = self.integrator.wrapping_add(i32::from(pcm) * 256);
        if sum >= 0 {
            Shaped {
                shaper: SigmaDelta {
                    integrator: sum - 65536,
                },
                pcm: 127,
            }
        } else {
            Shaped {
                shaper: SigmaDelta { integrator: sum },
                pcm: -127,
            }
        }
    }
}

// Second-order shaper. Its errors come from these calls alone, which keep them within −32,767..32,767 (`ValidShaper` says why that is no model).
#[derive(Clone, Copy, Debug, PartialEq, Eq)]
pub struct SigmaDelta2ndOrder {
    e1: i32,
    e2: i32,
}

// One stage: the level that it gives, and the error that is left.
#[derive(Clone, Copy, Debug, PartialEq, Eq)]
struct Staged {
    y: i32,
    e: i32,
}

// The error e gains x and loses its level.
#[tactic(auto, unfolding(crate::specs::Shapers::quantized))]
fn stage(e: i32, x: i32) -> Staged
    requires { (nat_abs e ≤ 32767) × (mag x ≤ 32767) }
    ensures level { result.y ≡ quantized (e +ℤ x) }
    ensures error { result.e ≡ e +ℤ x -ℤ quantized (e +ℤ x) }
    ensures small_level { mag result.y ≤ 32767 }
    ensures small_error { nat_abs result.e ≤ 32767 }
{
    let sum = e + x;
    if sum >= 0 {
        Staged {
            y: 32767,
            e: sum - 32767,
        }
    } else {
        Staged {
            y: -32768,
            e: sum + 32768,
        }
    }
}

// The sample that two levels give.
#[tactic(auto, unfolding(crate::specs::Shapers::pulse))]
fn pulse(y: i32) -> i8
    requires { mag y ≤ 65535 }
    ensures { result ≡ pulse y }
{
    (y >> 9).max(-127) as i8
}

impl SigmaDelta2ndOrder {
    pub fn new() -> Self
        ensures { Made ValidShaper fresh2nd_order result }
    {
        Self { e1: 0, e2: 0 }
    }

    pub fn reset(self) -> Self
        ensures { Made ValidShaper fresh2nd_order result }
    {
        Self::new()
    }

    pub fn e1(self) -> i32
        ensures { result ≡ self.e1 }
    {
        self.e1
    }

    pub fn e2(self) -> i32
        ensures { result ≡ self.e2 }
    {
        self.e2
    }

    pub fn shape(self, pcm: i8) -> Shaped<SigmaDelta2ndOrder>
        requires { ValidShaper self }
        ensures { Made ValidShaped (shaped2nd_order self pcm) result }
    {
        let first = stage(self.e1, i32::from(pcm) * 256);
        let second = stage(self.e2, first.e);
        Shaped {
            shaper: SigmaDelta2ndOrder {
                e1: first.e,
                e2: second.e,
            },
            pcm: pulse(first.y + second.y),
        }
    }
}

// Counts of a PWM period, at least 2: below, there is no duty from 1 to the period less 1.
#[derive(Clone, Copy, Debug, PartialEq, Eq)]
pub struct Period {
    counts: u16,
}

impl Model for Period {
    ghost use Rattle.std.specs.Prelude.{ℕ, ◌≤◌};

    ghost Value = { ℕ };

    ghost view = { λ p. p.counts };

    ghost invariant = { λ p. 2 ≤ p.counts };

    ghost inverse = { λ counts. record { counts = counts } };
}

impl Period {
    pub fn new(counts: u16) -> Result<Period, AudioError>
        ensures { Answered ValidPeriod (period_read counts) result }
    {
        if counts < 2 {
            return Err(AudioError::BadPeriod);
        }
        Ok(Period { counts })
    }

    pub fn counts(self) -> u16
        ensures same { result ≡ self }
        ensures least { 2 ≤ result }
    {
        self.counts
    }
}

pub fn pcm_to_duty(pcm: i8, period: Period) -> u16
    ensures { result ≡ duty pcm period }
{
    let counts = i32::from(period.counts);
    let mid = counts / 2;
    (mid + i32::from(pcm) * (mid - 1) / 127).clamp(1, counts - 1) as u16
}

// The whole output path: the mode's shaper, then duty.
#[derive(Clone, Copy, Debug, PartialEq, Eq)]
pub struct PwmMapper {
    pub mode: DutyMode,
    pub sigma_delta: SigmaDelta,
    pub sigma_delta_2nd: SigmaDelta2ndOrder,
}

#[derive(Clone, Copy, Debug, PartialEq, Eq)]
pub struct Mapped {
    pub mapper: PwmMapper,
    pub duty: u16,
}

impl PwmMapper {
    pub fn new(mode: DutyMode) -> Self
        ensures { Made ValidMapper (fresh_mapper mode) result }
    {
        Self {
            mode,
            sigma_delta: SigmaDelta::new(),
            sigma_delta_2nd: SigmaDelta2ndOrder::new(),
        }
    }

    pub fn map(self, pcm: i8, period: Period) -> Mapped
        requires { ValidMapper self }
        ensures { Made ValidMapped (mapped self pcm period) result }
    {
        match self.mode {
            DutyMode::Linear => Mapped {
                mapper: self,
                duty: pcm_to_duty(pcm, period),
            },
            DutyMode::SigmaDelta => {
                let s = self.sigma_delta.shape(pcm);
                Mapped {
                    mapper: PwmMapper {
                        sigma_delta: s.shaper,
                        ..self
                    },
                    duty: pcm_to_duty(s.pcm, period),
                }
            }
            DutyMode::SigmaDelta2ndOrder => {
                let s = self.sigma_delta_2nd.shape(pcm);
                Mapped {
                    mapper: PwmMapper {
                        sigma_delta_2nd: s.shaper,
                        ..self
                    },
                    duty: pcm_to_duty(s.pcm, period),
                }
            }
        }
    }

    pub fn reset(self) -> Self
        ensures { Made ValidMapper (fresh_mapper self.mode) result }
    {
        PwmMapper::new(self.mode)
    }
}

// Soft limiter before the mix bus, over the sums that sixteen samples can have.
pub fn limit_bus(sum: i32) -> Result<i8, AudioError>
    ensures { told result ≡ limited_bus sum }
{
    if sum < -2048 || sum > 2032 {
        return Err(AudioError::BadSum);
    }
    Ok(fixed::soft_limit_i8(sum))
}

// The scales stay one function each, by the source's names: a generic one over type and factor is no plainer than their single lines.
pub fn pcm_to_i16(pcm: i8) -> i16
    ensures { result ≡ pcm *ℤ pos 256 }
{
    i16::from(pcm) * 256
}

pub fn pcm_to_i32(pcm: i8) -> i32
    ensures { result ≡ pcm *ℤ pos 0x100_0000 }
{
    i32::from(pcm) * 0x100_0000
}

pub fn pcm_to_dac_u8(pcm: i8) -> u8
    ensures { result ≡ raised pcm }
{
    (i16::from(pcm) + 128) as u8
}

pub fn pcm_to_dac_u12(pcm: i8) -> u16
    ensures { result ≡ raised pcm * 4095 / 255 }
{
    (u32::from(pcm_to_dac_u8(pcm)) * 4095 / 255) as u16
}

pub fn pcm_to_dac_u16(pcm: i8) -> u16
    ensures { result ≡ raised pcm * 256 }
{
    u16::from(pcm_to_dac_u8(pcm)) * 256
}
