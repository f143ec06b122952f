// The replay's records of the evacuation pattern: 80 prints a run of its samples, 81 reads a recording.
#![tactic(auto)]

ghost use Rattle.std.specs.Prelude.{◌≡◌, ◌++◌, ◌-◌, ◌/◌, ◌≤◌, min};
ghost use Rattle.hex_digits.specs.Hex.{bytes_from, hex_of, newline, Wrote};
ghost use Rattle.error.specs.Told.{value};
ghost use Rattle.evacuation.specs.Pattern.{byte_of};
ghost use Rattle.evacuation.specs.Reader.{whole_cycles};
ghost use Rattle.replay_patterns.specs.Records.{samples_at, lines_of, pattern_text, reader_text};

use evacuation::{Pattern, Reader};
use hex_digits::{bytes_from, end_line, long_at, put, put_line, wide_at};

// Each sample in two digits, below the number's line. A run may go on past sample 2^32 − 1. The loop counts samples, which are in no array.
fn run(l: &[u8], p: Pattern, out: &mut [u8; 262144]) -> usize
    ensures { Wrote out.old 0 (lines_of (value (samples_at p l.now))) out.new result }
{
    let first = u64::from(long_at(l, 5));
    let count = u64::from(wide_at(l, 9));
    let mut next = put_line(out, 0, 2);
    for i in 0..count {
        next = put(out, next, u64::from(p.sounds(first + i)), 2);
    }
    end_line(out, next)
}

// Record 80, from the front of the buffer on.
#[tactic(auto, unfolding(crate::specs::Records::pattern_text))]
pub fn pattern(l: &[u8], out: &mut [u8; 262144]) -> usize
    ensures { Wrote out.old 0 (pattern_text l.now) out.new result }
{
    match Pattern::open(long_at(l, 1)) {
        Ok(p) => run(l, p, out),
        Err(e) => put_line(out, u64::from(u8::from(e)), 2),
    }
}

fn read(l: &[u8], n: usize, r: Reader) -> bool
    requires { n ≤ 4092 }
    ensures { result ≡ whole_cycles r (bytes_from l.now 5 n) }
{
    let mut cells = [0u8; 4096];
    bytes_from(l, 5, n, &mut cells);
    r.whole_cycles(&cells[..n])
}

// How many bytes a line has after its fifth, held to as many as a good line has at most.
fn recording_len(digits: usize) -> usize
    ensures { result ≡ min (digits / 2 - 5) 4092 }
{
    (digits / 2).saturating_sub(5).min(4092)
}

// The number and the answer stand side by side in the line, 0 where nothing is refused: a Result would be taken apart into just these two.
fn put_answer(out: &mut [u8; 262144], number: u8, answer: bool) -> usize
    ensures { Wrote out.old 0 (hex_of 2 number ++ hex_of 2 (byte_of answer) ++ newline) out.new result }
{
    let n = put(out, 0, u64::from(number), 2);
    let m = put(out, n, u64::from(answer), 2);
    end_line(out, m)
}

// Record 81, from the front of the buffer on.
#[tactic(auto, unfolding(crate::specs::Records::reader_text))]
pub fn reader(l: &[u8], out: &mut [u8; 262144]) -> usize
    ensures { Wrote out.old 0 (reader_text l.now) out.new result }
{
    let n = recording_len(l.len());
    match Reader::open(long_at(l, 1)) {
        Ok(r) => put_answer(out, 0, read(l, n, r)),
        Err(e) => put_answer(out, u8::from(e), false),
    }
}
