// The buffer calls of a state with its line: requests go in at the start of a frame, and frames at whose start none can are made at once. A part of the box of
// the present rules (document 02, T-08). `Valid s` is no model's invariant: other states hold this one, and a struct that holds a model is not copied in a
// proof (tried with the parts of a mixer).
#![tactic(auto)]

ghost use Rattle.std.specs.Prelude.{◌≡◌, ◌+◌, ◌*◌, ◌≤◌};
ghost use Rattle.entering.specs.Lined.{Valid};
ghost use Rattle.filling.specs.Frames.{Fills, Levels};
ghost use Rattle.filling.specs.Parts.{at_once};

use buffers::{Cell, Level, Shape};
use entering::Lined;

// A state after a buffer was filled, and how many cells were written. A pair would be no plainer: contracts say `lined` and `filled`.
#[derive(Clone, Copy)]
pub struct LinedFilled {
    pub lined: Lined,
    pub filled: usize,
}

// How many of the frames that are left can be made at once, after entering.
fn at_once(s: Lined, left: usize) -> usize
    requires { Valid s }
    ensures { result ≡ at_once s left }
{
    if s.line.count == 0 {
        return left;
    }
    let steady = spans::steady_frames(s.present.mixer) as usize;
    steady.min(left)
}

// Part after part, in each of which none that waits could go in. How long a part is shows only at its start, so no iterator over chunks is plainer.
#[tactic(auto, using(crate::proofs::Laws::shape_parts))]
pub fn fill<C: Cell>(s: Lined, bytes: &[u8], shape: Shape, out: &mut [C]) -> LinedFilled
    requires { Valid s }
    ensures { Fills C.scaled shape bytes.now s out.old result out.new }
{
    let mut left = shape.frames_in(out.len());
    let mut state = s;
    let mut at: usize = 0;
    while left > 0 {
        state = entering::enter(state, bytes);
        let n = at_once(state, left);
        let end = at + n * shape.wide();
        let f = buffers::fill(state.present, shape, &mut out[at..end]);
        state.present = f.state.settled();
        at = end;
        left -= n;
    }
    LinedFilled {
        lined: state,
        filled: at,
    }
}

// A frame for each cell, part after part as above: no iterator over chunks is plainer.
#[tactic(auto, using(crate::proofs::Laws::level_parts))]
pub fn fill_u16(s: Lined, bytes: &[u8], level: Level, out: &mut [u16]) -> LinedFilled
    requires { Valid s }
    ensures { Levels level bytes.now s out.old result out.new }
{
    let mut left = out.len();
    let mut state = s;
    let mut at: usize = 0;
    while left > 0 {
        state = entering::enter(state, bytes);
        let n = at_once(state, left);
        let end = at + n;
        let f = buffers::fill_u16(state.present, level, &mut out[at..end]);
        state.present = f.state.settled();
        at = end;
        left -= n;
    }
    LinedFilled {
        lined: state,
        filled: at,
    }
}
