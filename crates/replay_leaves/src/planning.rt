// How often a signal would be turned away (86). Its digits are more than one number holds.
ghost use Rattle.std.specs.Prelude.{◌++◌};
ghost use Rattle.hex_digits.specs.Hex.{hex_of, newline, Wrote};
ghost use Rattle.replay_leaves.specs.Planning.{counts_text};

use hex_digits::{byte_at, end_line, put};

// The number is one that is printed, 0 where nothing was refused, and zeros stand for counts that are not there: no Result.
fn put_counts(out: &mut [u8; 262144], number: u8, refused: u32, accepted: u32) -> usize
    ensures { Wrote out.old 0 (hex_of 2 number ++ hex_of 8 refused ++ hex_of 8 accepted ++ newline) out.new result }
{
    let n = put(out, 0, number as u64, 2);
    let m = put(out, n, refused as u64, 8);
    let k = put(out, m, accepted as u64, 8);
    end_line(out, k)
}

// From the front of the buffer on.
#[tactic(auto, unfolding(crate::specs::Planning::counts_text))]
pub(crate) fn counts(l: &[u8], out: &mut [u8; 262144]) -> usize
    ensures { Wrote out.old 0 (counts_text l.now) out.new result }
{
    match counts::turned_away(byte_at(l, 1), byte_at(l, 2), byte_at(l, 3), byte_at(l, 4)) {
        Ok(c) => put_counts(out, 0, c.refused, c.accepted),
        Err(e) => put_counts(out, u8::from(e), 0, 0),
    }
}
