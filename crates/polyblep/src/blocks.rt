// A block of samples at once. Each waveform has a loop of its own, so that the waveform is looked at once a block.
ghost use Rattle.std.specs.Prelude.{◌≡◌, ◌≤◌, min, true, T, Float, length};
ghost use Rattle.tone.specs.Blocks.{Waved};
ghost use Rattle.polyblep.specs.Blocks.{BlepBlock, moved, cut_at, cut_of};
ghost use Rattle.polyblep.specs.Waves.{sine_part, sawtooth, square, triangle};
ghost use Rattle.polyblep.specs.Oscillators.{ValidVoice};
ghost use Rattle.polyblep.specs.Ranges.{is_phase, is_step};

use super::{
    PolyBlepOscillator, PolyBlepVoice, PolyBlepWaveform, advance_phase, cast, corrections, waves,
};
use fixed::Step;

#[tactic(auto, unfolding(crate::proofs::Literals::of_bits, crate::proofs::Literals::round, crate::proofs::Literals::neg))]
fn cut(s: f32) -> i8
    ensures { result ≡ cut_of s }
{
    cast::truncated(fixed::clamp_f32(s, -1.0, 1.0))
}

// A waveform as a type, for which the loop below is made. A phase is a float in a range; a struct round it would be unwrapped in each formula.
trait Wave {
    ghost value: { Float → Float → Float };

    fn at(t: f32, dt: f32) -> f32
        requires { T (is_phase t) }
        ensures { result ≡ value t dt };
}

struct Sine;

impl Wave for Sine {
    ghost value = { λ t dt. sine_part t };

    fn at(t: f32, dt: f32) -> f32 {
        corrections::sine_part(t)
    }
}

struct Sawtooth;

impl Wave for Sawtooth {
    ghost value = { sawtooth };

    fn at(t: f32, dt: f32) -> f32 {
        waves::sawtooth_at(t, dt)
    }
}

struct Square;

impl Wave for Square {
    ghost value = { square };

    fn at(t: f32, dt: f32) -> f32 {
        waves::square_at(t, dt)
    }
}

struct Triangle;

impl Wave for Triangle {
    ghost value = { triangle };

    fn at(t: f32, dt: f32) -> f32 {
        waves::triangle_at(t, dt)
    }
}

// A sample in each cell, from the phase on, and the phase after them.
fn fill_with<W: Wave>(phase: f32, inc: f32, out: &mut [i8]) -> f32
    requires phase { T (is_phase phase) }
    requires step { T (is_step inc) }
    ensures { Waved (moved inc) (λ p. cut_of (W.value p inc)) (length out.old) phase out.old result out.new }
{
    let mut p = phase;
    for cell in out {
        *cell = cut(W::at(p, inc));
        p = advance_phase(p, inc);
    }
    p
}

#[tactic(auto, unfolding(crate::specs::Waves::shape, crate::specs::Waves::sample_at))]
fn fill_wave(waveform: PolyBlepWaveform, phase: f32, inc: f32, out: &mut [i8]) -> f32
    requires phase { T (is_phase phase) }
    requires step { T (is_step inc) }
    ensures { Waved (moved inc) (cut_at waveform inc) (length out.old) phase out.old result out.new }
{
    match waveform {
        PolyBlepWaveform::Sine => fill_with::<Sine>(phase, inc, out),
        PolyBlepWaveform::Sawtooth => fill_with::<Sawtooth>(phase, inc, out),
        PolyBlepWaveform::Square => fill_with::<Square>(phase, inc, out),
        PolyBlepWaveform::Triangle => fill_with::<Triangle>(phase, inc, out),
    }
}

// `ValidVoice self` stays, as lib.rt says of `Valid`.
impl PolyBlepVoice {
    // len requests: what is given is how many of them, the first ones, gave a sample, written from the front on. Past 256 nothing is asked for.
    // A block is lent, since there is no heap, and has one size for all sources.
    pub fn fill(self, len: usize, out: &mut [i8; 256]) -> Step<PolyBlepVoice, usize>
        requires { ValidVoice self }
        ensures { BlepBlock self (min len 256) out.old result out.new }
    {
        if self.active {
            self.fill_active(tone::block_len(len), out)
        } else {
            Step {
                voice: self,
                given: 0,
            }
        }
    }

    fn fill_active(self, len: usize, out: &mut [i8; 256]) -> Step<PolyBlepVoice, usize>
        requires few { len ≤ 256 }
        requires sounds { self.active ≡ true }
        requires valid { ValidVoice self }
        ensures { BlepBlock self len out.old result out.new }
    {
        let given = tone::given_of(self.samples_left, len);
        let o = self.osc;
        let phase = fill_wave(o.waveform, o.phase, o.phase_inc, &mut out[..given]);
        let osc = PolyBlepOscillator { phase, ..o };
        let voice = PolyBlepVoice {
            osc,
            samples_left: tone::less(self.samples_left, given),
            active: given == len,
        };
        Step { voice, given }
    }
}
