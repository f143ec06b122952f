// Lists of numbers as lines of digits, from the front of the buffer on: a number in so many digits, and every cell at its width, as far
// as the buffer goes.
#![tactic(auto)]

ghost use Rattle.std.specs.Prelude.{◌≡◌, ℕ, List};
ghost use Rattle.hex_digits.specs.Hex.{Laid};
ghost use Rattle.replay_cells.specs.Cells.{byte_text, wide_text, i8_text, i16_text, i32_text, numbered_text};

use hex_digits::{end_line, put};

// A number as a cell of a list: its digits from a place on. It gives the place after them. Buffer and place go together, as `hex_digits::put` has them.
pub trait Cell: Copy {
    ghost text: { Self → List ℕ };

    fn put(self, out: &mut [u8; 262144], at: usize) -> usize
        ensures { Laid out.old at (text self) out.new result };
}

impl Cell for u8 {
    ghost text = { byte_text };

    fn put(self, out: &mut [u8; 262144], at: usize) -> usize {
        put(out, at, u64::from(self), 2)
    }
}

impl Cell for u16 {
    ghost text = { wide_text };

    fn put(self, out: &mut [u8; 262144], at: usize) -> usize {
        put(out, at, u64::from(self), 4)
    }
}

impl Cell for i8 {
    ghost text = { i8_text };

    fn put(self, out: &mut [u8; 262144], at: usize) -> usize {
        put(out, at, u64::from(self.cast_unsigned()), 2)
    }
}

impl Cell for i16 {
    ghost text = { i16_text };

    fn put(self, out: &mut [u8; 262144], at: usize) -> usize {
        put(out, at, u64::from(self.cast_unsigned()), 4)
    }
}

impl Cell for i32 {
    ghost text = { i32_text };

    fn put(self, out: &mut [u8; 262144], at: usize) -> usize {
        put(out, at, u64::from(self.cast_unsigned()), 8)
    }
}

pub fn put_cells<C: Cell>(out: &mut [u8; 262144], number: u64, digits: u8, cells: &[C]) -> usize
    ensures { Laid out.old 0 (numbered_text digits number C.text cells.now) out.new result }
{
    let mut next = put(out, 0, number, digits);
    for c in cells {
        next = c.put(out, next);
    }
    end_line(out, next)
}
