// An oscillator and a voice from their fields, the floats by their bits. A phase or a step outside its range is refused.
ghost use Rattle.std.specs.Prelude.{◌≡◌};
ghost use Rattle.laws.specs.Made.{Made};
ghost use Rattle.polyblep.specs.Ranges.{is_phase, is_step};
ghost use Rattle.polyblep.specs.Restores.{ValidRestored, ValidRestoredVoice, restored, restored_voice};

use super::{PolyBlepOscillator, PolyBlepVoice, PolyBlepWaveform};
use fixed::float_of;

#[tactic(auto, unfolding(crate::specs::Ranges::is_phase, crate::proofs::Literals::of_bits, crate::proofs::Literals::round))]
fn is_phase(x: f32) -> bool
    ensures { result ≡ is_phase x }
{
    x >= 0.0 && x < 1.0
}

#[tactic(auto, unfolding(crate::specs::Ranges::is_step, crate::proofs::Literals::of_bits, crate::proofs::Literals::round))]
fn is_step(x: f32) -> bool
    ensures { result ≡ is_step x }
{
    x >= 0.0 && x <= 0.499
}

impl PolyBlepOscillator {
    #[tactic(auto, unfolding(crate::specs::Restores::restored))]
    pub fn restored(
        phase_bits: u32,
        step_bits: u32,
        waveform: PolyBlepWaveform,
        freq_hz: u32,
        sample_rate_hz: u32,
    ) -> Option<PolyBlepOscillator>
        ensures { Made ValidRestored (restored phase_bits step_bits waveform freq_hz sample_rate_hz) result }
    {
        let phase = float_of(phase_bits);
        let phase_inc = float_of(step_bits);
        if !is_phase(phase) || !is_step(phase_inc) {
            return None;
        }
        Some(PolyBlepOscillator {
            phase,
            phase_inc,
            waveform,
            freq_hz,
            sample_rate_hz,
        })
    }
}

// `active` is the source's field, and chooses no step here.
impl PolyBlepVoice {
    #[tactic(auto, unfolding(crate::specs::Restores::restored_voice))]
    pub fn restored(
        phase_bits: u32,
        step_bits: u32,
        waveform: PolyBlepWaveform,
        freq_hz: u32,
        sample_rate_hz: u32,
        samples_left: u32,
        active: bool,
    ) -> Option<PolyBlepVoice>
        ensures { Made ValidRestoredVoice (restored_voice phase_bits step_bits waveform freq_hz sample_rate_hz samples_left active) result }
    {
        let osc = PolyBlepOscillator::restored(
            phase_bits,
            step_bits,
            waveform,
            freq_hz,
            sample_rate_hz,
        )?;
        Some(PolyBlepVoice {
            osc,
            samples_left,
            active,
        })
    }
}
