// A block's samples as cells of a buffer. Nothing here knows of a box.
ghost use Rattle.std.specs.Prelude.{◌≡◌, map, ◌+◌, ◌*◌, ◌≤◌, length, take};
ghost use Rattle.laws.specs.Made.{Made};
ghost use Rattle.output.specs.Duty.{ValidMapper, ValidMapped};
ghost use Rattle.buffers.specs.Buffers.{to_i8};
ghost use Rattle.buffers.specs.Blocks.{pairs, leveled, mapper_over, levels_over, Span, Laid};

use crate::{Cell, Level, Shape};
use output::{Mapped, Period, PwmMapper};
use tone::block_len;

// The samples' cells. Tried `zip`: of the cells that it lends, a proof knows no more than how many they are.
#[tactic(auto, using(crate::proofs::Putting::scaled_stores))]
pub fn put<C: Cell>(samples: &[i8], cells: &mut [C])
    requires { length samples.now ≡ length cells.old }
    ensures { cells.new ≡ map C.scaled samples.now }
{
    for (i, cell) in cells.iter_mut().enumerate() {
        *cell = C::of(samples[i]);
    }
}

// A sample's cell at a level, and the mapper after it.
fn leveled(level: Level, mapper: PwmMapper, sample: i8, period: Period) -> Mapped
    requires { ValidMapper mapper }
    ensures { Made ValidMapped (leveled level period mapper sample) result }
{
    match level {
        Level::Duty => mapper.map(sample, period),
        Level::U12 => Mapped {
            mapper,
            duty: output::pcm_to_dac_u12(sample),
        },
        Level::U16 => Mapped {
            mapper,
            duty: output::pcm_to_dac_u16(sample),
        },
    }
}

// The samples' cells at a level, and the mapper after them.
#[tactic(auto, using(crate::proofs::Putting::level_stores))]
pub fn put_levels(
    level: Level,
    mapper: PwmMapper,
    period: Period,
    samples: &[i8],
    cells: &mut [u16],
) -> PwmMapper
    requires { (length samples.now ≡ length cells.old) × ValidMapper mapper }
    ensures { Made ValidMapper (mapper_over level period mapper samples.now) result × (cells.new ≡ levels_over level period mapper samples.now) }
{
    let mut state = mapper;
    for (i, cell) in cells.iter_mut().enumerate() {
        let d = leveled(level, state, samples[i], period);
        state = d.mapper;
        *cell = d.duty;
    }
    state
}

// Two blocks side by side, left before right. Tried `chunks_exact_mut`: of the cells that it lends, a proof knows no more than how many they are.
#[tactic(auto, using(crate::proofs::Putting::side_stores))]
fn put_sides(left: &[i8], right: &[i8], cells: &mut [i8])
    requires { (length right.now ≡ length left.now) × (length cells.old ≡ length left.now * 2) }
    ensures { cells.new ≡ pairs to_i8 left.now right.now }
{
    for (i, &sample) in left.iter().enumerate() {
        cells[2 * i] = sample;
        cells[2 * i + 1] = right[i];
    }
}

// How many frames the next block has, of those that there is room for in cells: 256 at most.
pub fn span(shape: Shape, room: usize) -> usize
    ensures { Span shape room result }
{
    block_len(shape.frames_in(room))
}

// The samples of n frames in the order of their cells; how many cells that are.
pub fn lay(
    shape: Shape,
    left: &[i8; 256],
    right: &[i8; 256],
    n: usize,
    raw: &mut [i8; 512],
) -> usize
    requires { n ≤ 256 }
    ensures { Laid shape n result left.now right.now raw.new }
{
    let k = n * shape.wide();
    match shape {
        Shape::Once => raw[..k].copy_from_slice(&left[..n]),
        Shape::Doubled => put_sides(&left[..n], &left[..n], &mut raw[..k]),
        Shape::Sides => put_sides(&left[..n], &right[..n], &mut raw[..k]),
    }
    k
}
