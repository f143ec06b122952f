// The waveforms at a phase and a step, plain floats: a struct round a phase of 0..1 would be unwrapped in each formula.
ghost use Rattle.std.specs.Prelude.{◌≡◌, T};
ghost use Rattle.polyblep.specs.Ranges.{is_phase};
ghost use Rattle.polyblep.specs.Waves.{sawtooth, half_turn, square, triangle, shape, sample_at};

use super::PolyBlepWaveform;
use super::corrections::{poly_blamp, poly_blep, sine_part};

#[tactic(auto, unfolding(crate::specs::Waves::sawtooth, crate::proofs::Literals::of_bits, crate::proofs::Literals::round))]
pub(crate) fn sawtooth_at(t: f32, dt: f32) -> f32
    ensures { result ≡ sawtooth t dt }
{
    let s = 1.0 - 2.0 * t;
    s - poly_blep(t, dt)
}

#[tactic(auto, unfolding(crate::specs::Waves::half_turn, crate::proofs::Literals::of_bits, crate::proofs::Literals::round))]
fn half_turn(t: f32) -> f32
    ensures { result ≡ half_turn t }
{
    if t >= 0.5 { t - 0.5 } else { t + 0.5 }
}

#[tactic(auto, unfolding(crate::specs::Waves::square, crate::proofs::Literals::of_bits, crate::proofs::Literals::round, crate::proofs::Literals::neg))]
pub(crate) fn square_at(t: f32, dt: f32) -> f32
    ensures { result ≡ square t dt }
{
    let mut s = if t < 0.5 { 1.0 } else { -1.0 };
    s += poly_blep(t, dt);
    s -= poly_blep(half_turn(t), dt);
    s
}

#[tactic(auto, unfolding(crate::specs::Waves::triangle, crate::proofs::Literals::of_bits, crate::proofs::Literals::round))]
pub(crate) fn triangle_at(t: f32, dt: f32) -> f32
    ensures { result ≡ triangle t dt }
{
    let mut s = if t < 0.5 {
        4.0 * t - 1.0
    } else {
        3.0 - 4.0 * t
    };
    s -= poly_blamp(t, dt);
    s += poly_blamp(half_turn(t), dt);
    s
}

#[tactic(auto, unfolding(crate::specs::Waves::shape))]
fn shape_at(waveform: PolyBlepWaveform, t: f32, dt: f32) -> f32
    requires { T (is_phase t) }
    ensures { result ≡ shape waveform t dt }
{
    match waveform {
        PolyBlepWaveform::Sine => sine_part(t),
        PolyBlepWaveform::Sawtooth => sawtooth_at(t, dt),
        PolyBlepWaveform::Square => square_at(t, dt),
        PolyBlepWaveform::Triangle => triangle_at(t, dt),
    }
}

#[tactic(auto, unfolding(crate::specs::Waves::sample_at, crate::proofs::Literals::of_bits, crate::proofs::Literals::round, crate::proofs::Literals::neg))]
pub(crate) fn sample_at(waveform: PolyBlepWaveform, t: f32, dt: f32) -> f32
    requires { T (is_phase t) }
    ensures { result ≡ sample_at waveform t dt }
{
    fixed::clamp_f32(shape_at(waveform, t, dt), -1.0, 1.0)
}
