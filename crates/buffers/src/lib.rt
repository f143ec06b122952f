// The buffer calls: blocks of frames, each cell scaled as the buffer's kind asks.
#![tactic(auto)]

ghost use Rattle.std.specs.Prelude.{◌≡◌};
ghost use Rattle.block.specs.Blocks.{ValidInside};
ghost use Rattle.buffers.specs.Shapes.{wide, frames_in, sides_of, FillsFrom, LevelsFrom};

use block::sound;
use marks::Present;
use output::Period;
use tone::block_len;

mod cells;
mod scales;

pub use cells::Cell;

// A state after a buffer was filled, and how many cells were written. A pair would be no plainer: contracts say `state` and `filled`.
#[derive(Clone, Copy)]
pub struct Filled {
    pub state: Present,
    pub filled: usize,
}

// What a frame gives: the mono sample once, on both sides, or a sample for each side.
#[derive(Clone, Copy)]
pub enum Shape {
    Once,
    Doubled,
    Sides,
}

impl Shape {
    // How many whole frames these cells hold.
    pub fn frames_in(self, cells: usize) -> usize
        ensures { result ≡ frames_in self cells }
    {
        match self {
            Shape::Once => cells,
            Shape::Doubled | Shape::Sides => cells / 2,
        }
    }

    // How many cells a frame has: a count, for which an enum would be no plainer.
    pub fn wide(self) -> usize
        ensures { result ≡ wide self }
    {
        match self {
            Shape::Once => 1,
            Shape::Doubled | Shape::Sides => 2,
        }
    }

    // Whether a frame has two sides.
    fn sided(self) -> bool
        ensures { result ≡ sides_of self }
    {
        match self {
            Shape::Once | Shape::Doubled => false,
            Shape::Sides => true,
        }
    }
}

// What a 16-bit cell without a sign says.
#[derive(Clone, Copy)]
pub enum Level {
    Duty,
    U12,
    U16,
}

// Block after block, each scaled as its cells' kind asks. `ValidInside p` is no model's invariant: other states hold this one, and a struct that holds a model
// is not copied in a proof (tried with the parts of a mixer). Nor by `chunks_mut`: of cells lent so, a proof knows no more than how many they are (tried with `chunks_exact_mut`).
#[tactic(auto, using(crate::proofs::Sounds::shape_blocks))]
pub fn fill<C: Cell>(p: Present, shape: Shape, out: &mut [C]) -> Filled
    requires { ValidInside p }
    ensures { FillsFrom C.scaled shape p out.old result out.new }
{
    let len = out.len();
    let sides = shape.sided();
    let mut left = [0i8; 256];
    let mut right = [0i8; 256];
    let mut raw = [0i8; 512];
    let mut state = p;
    let mut at: usize = 0;
    let mut n = scales::span(shape, len);
    while n > 0 {
        state = sound(state, sides, n, &mut left, &mut right);
        let k = scales::lay(shape, &left, &right, n, &mut raw);
        scales::put(&raw[..k], &mut out[at..at + k]);
        at += k;
        n = scales::span(shape, len - at);
    }
    Filled { state, filled: at }
}

// A frame for each cell, by a period that is the state's own. By place, as above.
#[tactic(auto, using(crate::proofs::Sounds::level_blocks))]
fn fill_levels(p: Present, level: Level, period: Period, out: &mut [u16]) -> Filled
    requires { ValidInside p × (period ≡ p.mixer.config.pwm_period) }
    ensures { LevelsFrom level p out.old result out.new }
{
    let len = out.len();
    let mut left = [0i8; 256];
    let mut right = [0i8; 256];
    let mut state = p;
    let mut at: usize = 0;
    while at < len {
        let n = block_len(len - at);
        state = sound(state, false, n, &mut left, &mut right);
        let old = state.mixer.mapper;
        let mapper = scales::put_levels(level, old, period, &left[..n], &mut out[at..at + n]);
        state.mixer.mapper = mapper;
        at += n;
    }
    Filled { state, filled: at }
}

pub fn fill_u16(p: Present, level: Level, out: &mut [u16]) -> Filled
    requires { ValidInside p }
    ensures { LevelsFrom level p out.old result out.new }
{
    match Period::new(p.mixer.config.pwm_period) {
        Ok(period) => fill_levels(p, level, period, out),
        // A valid state's period is accepted.
        Err(e) => Filled {
            state: p,
            filled: 0,
        },
    }
}
