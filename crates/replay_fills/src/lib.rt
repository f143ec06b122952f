// The records that fill a buffer: each makes its call and prints every cell, from the front of the answer on.
#![tactic(auto)]

ghost use Rattle.std.specs.Prelude.{◌≡◌, ◌≤◌, length, min};
ghost use Rattle.buffers.specs.Buffers.{to_i8, to_i16, to_i32};
ghost use Rattle.output.specs.Levels.{raised};
ghost use Rattle.replay_cells.specs.Cells.{byte_text, i8_text, i16_text, i32_text};
ghost use Rattle.replay_fills.specs.Fills.{Short, blank_u8, blank_i8, blank_i16, blank_i32, buffer_of, shaped_over, shaped_fill, level_fill, fill_for, Shows};

use buffers::{Level, Shape};
use replay_box::OpenBox;
use replay_cells::put_cells;

// Cells with A5 in every byte.
const BLANK_U8: u8 = 0xa5;

const BLANK_U16: u16 = 0xa5a5;

const BLANK_I8: i8 = -91;

const BLANK_I16: i16 = -23131;

const BLANK_I32: i32 = -1515870811;

// The records, in the order of their codes.
#[derive(Clone, Copy, Debug, PartialEq, Eq)]
pub enum Buffer {
    Duty,
    PcmI8,
    PcmI16,
    PcmI32,
    DacU8,
    DacU12,
    DacU16,
    StereoI16,
    StereoI32,
    PannedI16,
    PannedI8,
}

// Blank cells, filled by shape, and how long their text is.
fn shaped<C: buffers::Cell + replay_cells::Cell>(
    bytes: &[u8],
    e: &mut OpenBox,
    shape: Shape,
    cells: &mut [C],
    out: &mut [u8; 262144],
) -> usize
    requires short { Short C.text }
    requires few { length cells.old ≤ 2048 }
    ensures { Shows (shaped_over C.text C.scaled shape (length cells.old) cells.old bytes.now e.old) out.old out.new e.new result }
{
    let filled = e.fill(bytes, shape, cells);
    put_cells(out, filled as u64, 4, cells)
}

// The cells of each kind: an array of cells of a kind that is not known is not lent in a proof, since its size is not.
fn i8s(bytes: &[u8], e: &mut OpenBox, shape: Shape, n: usize, out: &mut [u8; 262144]) -> usize
    requires { n ≤ 2048 }
    ensures { Shows (shaped_fill i8_text blank_i8 to_i8 shape n bytes.now e.old) out.old out.new e.new result }
{
    let mut cells = [BLANK_I8; 2048];
    shaped(bytes, e, shape, &mut cells[..n], out)
}

fn i16s(bytes: &[u8], e: &mut OpenBox, shape: Shape, n: usize, out: &mut [u8; 262144]) -> usize
    requires { n ≤ 2048 }
    ensures { Shows (shaped_fill i16_text blank_i16 to_i16 shape n bytes.now e.old) out.old out.new e.new result }
{
    let mut cells = [BLANK_I16; 2048];
    shaped(bytes, e, shape, &mut cells[..n], out)
}

fn i32s(bytes: &[u8], e: &mut OpenBox, shape: Shape, n: usize, out: &mut [u8; 262144]) -> usize
    requires { n ≤ 2048 }
    ensures { Shows (shaped_fill i32_text blank_i32 to_i32 shape n bytes.now e.old) out.old out.new e.new result }
{
    let mut cells = [BLANK_I32; 2048];
    shaped(bytes, e, shape, &mut cells[..n], out)
}

fn u8s(bytes: &[u8], e: &mut OpenBox, shape: Shape, n: usize, out: &mut [u8; 262144]) -> usize
    requires { n ≤ 2048 }
    ensures { Shows (shaped_fill byte_text blank_u8 raised shape n bytes.now e.old) out.old out.new e.new result }
{
    let mut cells = [BLANK_U8; 2048];
    shaped(bytes, e, shape, &mut cells[..n], out)
}

// And those filled by level.
fn u16s(bytes: &[u8], e: &mut OpenBox, level: Level, n: usize, out: &mut [u8; 262144]) -> usize
    requires { n ≤ 2048 }
    ensures { Shows (level_fill level n bytes.now e.old) out.old out.new e.new result }
{
    let mut all = [BLANK_U16; 2048];
    let cells = &mut all[..n];
    let filled = e.fill_u16(bytes, level, cells);
    put_cells(out, filled as u64, 4, cells)
}

impl Buffer {
    #[tactic(auto, unfolding(crate::specs::Fills::buffer_of))]
    pub fn of(code: u8) -> Option<Buffer>
        ensures { result ≡ buffer_of code }
    {
        match code {
            0x20 => Some(Buffer::Duty),
            0x21 => Some(Buffer::PcmI8),
            0x22 => Some(Buffer::PcmI16),
            0x23 => Some(Buffer::PcmI32),
            0x24 => Some(Buffer::DacU8),
            0x25 => Some(Buffer::DacU12),
            0x26 => Some(Buffer::DacU16),
            0x27 => Some(Buffer::StereoI16),
            0x28 => Some(Buffer::StereoI32),
            0x29 => Some(Buffer::PannedI16),
            0x2a => Some(Buffer::PannedI8),
            _ => None,
        }
    }

    // No record asks for more than 2,048 cells; of a larger number, so many are filled.
    pub fn fill(self, bytes: &[u8], e: &mut OpenBox, n: usize, out: &mut [u8; 262144]) -> usize
        ensures { Shows (fill_for self (min n 2048) bytes.now e.old) out.old out.new e.new result }
    {
        let n = n.min(2048);
        match self {
            Buffer::Duty => u16s(bytes, e, Level::Duty, n, out),
            Buffer::PcmI8 => i8s(bytes, e, Shape::Once, n, out),
            Buffer::PcmI16 => i16s(bytes, e, Shape::Once, n, out),
            Buffer::PcmI32 => i32s(bytes, e, Shape::Once, n, out),
            Buffer::DacU8 => u8s(bytes, e, Shape::Once, n, out),
            Buffer::DacU12 => u16s(bytes, e, Level::U12, n, out),
            Buffer::DacU16 => u16s(bytes, e, Level::U16, n, out),
            Buffer::StereoI16 => i16s(bytes, e, Shape::Doubled, n, out),
            Buffer::StereoI32 => i32s(bytes, e, Shape::Doubled, n, out),
            Buffer::PannedI16 => i16s(bytes, e, Shape::Sides, n, out),
            Buffer::PannedI8 => i8s(bytes, e, Shape::Sides, n, out),
        }
    }
}
