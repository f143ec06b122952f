// A block of samples at once. Each waveform has a loop of its own, so that the waveform is looked at once a block.
ghost use Rattle.std.specs.Prelude.{◌≡◌, ◌≤◌, ℕ, ℤ, min, true, length};
ghost use Rattle.fixed.specs.Fixed.{index_of, sine};
ghost use Rattle.tone.specs.Tones.{square, triangle};
ghost use Rattle.tone.specs.Blocks.{Waved, ToneBlock, given_by, less_by, turned, wave_at};

use super::{ToneVoice, Waveform, square_at, triangle_at};
use fixed::Step;

// A block has 256 cells.
pub fn block_len(len: usize) -> usize
    ensures { result ≡ min len 256 }
{
    len.min(256)
}

// How many of len requests give a sample, where samples_left are left.
#[tactic(auto, unfolding(crate::specs::Blocks::given_by))]
pub fn given_of(samples_left: u32, len: usize) -> usize
    ensures { result ≡ given_by samples_left len }
{
    if samples_left == u32::MAX {
        return len;
    }
    len.min(samples_left as usize)
}

#[tactic(auto, unfolding(crate::specs::Blocks::less_by))]
pub fn less(samples_left: u32, n: usize) -> u32
    ensures { result ≡ less_by samples_left n }
{
    if samples_left == u32::MAX {
        return u32::MAX;
    }
    (samples_left as usize).saturating_sub(n) as u32
}

// A waveform as a type, for which the loop below is made.
trait Wave {
    ghost value: { ℕ → ℤ };

    fn at(index: u8) -> i8
        ensures { result ≡ value index };
}

struct Square;

impl Wave for Square {
    ghost value = { square };

    fn at(index: u8) -> i8 {
        square_at(index)
    }
}

struct Sine;

impl Wave for Sine {
    ghost value = { sine };

    fn at(index: u8) -> i8 {
        fixed::sin_table(index)
    }
}

struct Triangle;

impl Wave for Triangle {
    ghost value = { triangle };

    fn at(index: u8) -> i8 {
        triangle_at(index)
    }
}

// A sample in each cell, from the phase on, and the phase after them.
fn fill_with<W: Wave>(phase: u32, inc: u32, out: &mut [i8]) -> u32
    ensures { Waved (turned inc) (λ p. W.value (index_of p)) (length out.old) phase out.old result out.new }
{
    let mut p = phase;
    for cell in out {
        *cell = W::at(fixed::phase_index(p));
        p = p.wrapping_add(inc);
    }
    p
}

fn fill_wave(waveform: Waveform, phase: u32, inc: u32, out: &mut [i8]) -> u32
    ensures { Waved (turned inc) (wave_at waveform) (length out.old) phase out.old result out.new }
{
    match waveform {
        Waveform::Square => fill_with::<Square>(phase, inc, out),
        Waveform::Sine => fill_with::<Sine>(phase, inc, out),
        Waveform::Triangle => fill_with::<Triangle>(phase, inc, out),
    }
}

impl ToneVoice {
    // len requests: what is given is how many of them, the first ones, gave a sample, written from the front on. Past 256 nothing is asked for.
    // A block is lent, since there is no heap, and has one size for all sources.
    pub fn fill(self, len: usize, out: &mut [i8; 256]) -> Step<ToneVoice, usize>
        ensures { ToneBlock self (min len 256) out.old result out.new }
    {
        if self.active {
            self.fill_active(block_len(len), out)
        } else {
            Step {
                voice: self,
                given: 0,
            }
        }
    }

    fn fill_active(self, len: usize, out: &mut [i8; 256]) -> Step<ToneVoice, usize>
        requires few { len ≤ 256 }
        requires sounds { self.active ≡ true }
        ensures { ToneBlock self len out.old result out.new }
    {
        let given = given_of(self.samples_left, len);
        let phase = fill_wave(self.waveform, self.phase, self.phase_inc, &mut out[..given]);
        let voice = ToneVoice {
            phase,
            samples_left: less(self.samples_left, given),
            active: given == len,
            ..self
        };
        Step { voice, given }
    }
}
