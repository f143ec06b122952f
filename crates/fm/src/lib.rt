// Two-operator FM: a modulator's sample shifts the carrier's index into the sine.
#![tactic(auto)]

ghost use Rattle.std.specs.Prelude.{◌≡◌};
ghost use Rattle.fm.specs.Fm.{table_sine, table_sample, modulator_hz, offset_of, sample_at, fm_sample, silent_fm, started_fm, stopped_fm, stepped_fm};

use fixed::{Phase, Step};

mod blocks;

#[derive(Clone, Copy, Debug, PartialEq, Eq)]
pub struct FmVoice {
    pub carrier_phase: Phase,
    pub carrier_inc: u32,
    pub mod_phase: Phase,
    pub mod_inc: u32,
    pub mod_depth_q8: u8,
    pub active: bool,
}

// The sine plus 128 as a byte, which the source keeps in a table and reads as two's complement: 128 counts as -128.
fn sine_entry(index: u8) -> i8
    ensures { result ≡ table_sine index }
{
    fixed::as_i8((i16::from(fixed::sin_table(index)) + 128) as u8)
}

// What lies between the entries of an index and of the next, 255 being followed by 0.
#[tactic(auto, unfolding(crate::specs::Fm::table_sample))]
fn table_sample(index: u8, fraction: u8) -> i8
    ensures { result ≡ table_sample index fraction }
{
    let a = sine_entry(index);
    let b = sine_entry(index.wrapping_add(1));
    fixed::lerp_i8(a, b, fraction)
}

fn modulator_hz(carrier_hz: u32, mod_ratio_cent: u16) -> u32
    ensures { result ≡ modulator_hz carrier_hz mod_ratio_cent }
{
    let product = u64::from(carrier_hz) * u64::from(mod_ratio_cent);
    (product / 100 % 0x1_0000_0000) as u32
}

// How far the modulator shifts the carrier's index.
#[tactic(auto, unfolding(crate::specs::Fm::offset_of))]
fn mod_offset(mod_phase: Phase, mod_depth_q8: u8) -> u8
    ensures { result ≡ offset_of mod_phase mod_depth_q8 }
{
    let index = fixed::phase_index(mod_phase);
    let m = table_sample(index, fixed::phase_fraction(mod_phase));
    fixed::as_u8(fixed::apply_document_01_gain(m, mod_depth_q8))
}

// The sample of two phases and a depth.
fn sample_at(carrier_phase: Phase, mod_phase: Phase, mod_depth_q8: u8) -> i8
    ensures { result ≡ sample_at carrier_phase mod_phase mod_depth_q8 }
{
    let offset = mod_offset(mod_phase, mod_depth_q8);
    let index = fixed::phase_index(carrier_phase).wrapping_add(offset);
    table_sample(index, fixed::phase_fraction(carrier_phase))
}

impl Default for FmVoice {
    ghost is_default = { λ v. v ≡ silent_fm };

    fn default() -> FmVoice {
        FmVoice::new()
    }
}

impl FmVoice {
    pub fn new() -> FmVoice
        ensures { result ≡ silent_fm }
    {
        FmVoice {
            carrier_phase: 0,
            carrier_inc: 0,
            mod_phase: 0,
            mod_inc: 0,
            mod_depth_q8: 64,
            active: false,
        }
    }

    // The source starts a voice that it has; nothing of that voice is kept.
    #[tactic(auto, unfolding(crate::specs::Fm::started_fm))]
    pub fn start(
        carrier_hz: u32,
        mod_ratio_cent: u16,
        mod_depth_q8: u8,
        sample_rate_hz: u32,
    ) -> FmVoice
        ensures { result ≡ started_fm carrier_hz mod_ratio_cent mod_depth_q8 sample_rate_hz }
    {
        let mod_hz = modulator_hz(carrier_hz, mod_ratio_cent);
        FmVoice {
            carrier_phase: 0,
            carrier_inc: fixed::hz_to_phase_inc(carrier_hz, sample_rate_hz),
            mod_phase: 0,
            mod_inc: fixed::hz_to_phase_inc(mod_hz, sample_rate_hz),
            mod_depth_q8,
            active: true,
        }
    }

    #[tactic(auto, unfolding(crate::specs::Fm::stopped_fm))]
    pub fn stop(self) -> FmVoice
        ensures { result ≡ stopped_fm self }
    {
        FmVoice {
            active: false,
            ..self
        }
    }

    pub fn is_active(self) -> bool
        ensures { result ≡ self.active }
    {
        self.active
    }

    #[tactic(auto, unfolding(crate::specs::Fm::fm_sample))]
    fn sample(self) -> i8
        ensures { result ≡ fm_sample self }
    {
        sample_at(self.carrier_phase, self.mod_phase, self.mod_depth_q8)
    }

    #[tactic(auto, unfolding(crate::specs::Fm::stepped_fm))]
    pub fn next_sample(self) -> Step<FmVoice, Option<i8>>
        ensures { result ≡ stepped_fm self }
    {
        if self.active {
            let sample = self.sample();
            let voice = FmVoice {
                carrier_phase: self.carrier_phase.wrapping_add(self.carrier_inc),
                mod_phase: self.mod_phase.wrapping_add(self.mod_inc),
                ..self
            };
            Step {
                voice,
                given: Some(sample),
            }
        } else {
            Step {
                voice: self,
                given: None,
            }
        }
    }
}
