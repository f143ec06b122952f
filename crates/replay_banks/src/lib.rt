// The replay's record of writing a bank, 83.
#![tactic(auto)]

ghost use Rattle.std.specs.Prelude.{◌≡◌, ◌-◌, ◌/◌, min, length, replicate};
ghost use Rattle.hex_digits.specs.Hex.{Wrote};
ghost use Rattle.replay_banks.specs.Record.{header_at, rest_at, end_of, bank_of, bank_text, Left};

use hex_digits::{byte_at, bytes_from, wide_at};
use replay_cells::put_cells;

// Ten by hand: tried `std::array::from_fn`; that its cells are the line's bytes needs an induction over the calls, longer than these.
fn header(l: &[u8]) -> [u8; 10]
    ensures { result ≡ header_at l.now }
{
    [
        byte_at(l, 1),
        byte_at(l, 2),
        byte_at(l, 3),
        byte_at(l, 4),
        byte_at(l, 5),
        byte_at(l, 6),
        byte_at(l, 7),
        byte_at(l, 8),
        byte_at(l, 9),
        byte_at(l, 10),
    ]
}

// How many bytes a line has after its fourteenth, held to as many as a good line has at most.
fn rest_len(digits: usize) -> usize
    ensures { result ≡ min (digits / 2 - 14) 4083 }
{
    (digits / 2).saturating_sub(14).min(4083)
}

// Where the entries end and the payloads begin.
fn end_of(count: u8, rest: &[u8]) -> usize
    ensures { result ≡ end_of count rest.now }
{
    (13 * usize::from(count)).min(rest.len())
}

// The call, and what it answers: the refusal's number before eight zeros, or the length.
fn write(l: &[u8], rest: &[u8], out: &mut [u8]) -> u64
    ensures { Left (bank_of l.now rest.now (length out.old)) out.old out.new result }
{
    let count = byte_at(l, 13);
    let end = end_of(count, rest);
    let entries = bank_writer::entries_from(&rest[..end]);
    match bank_writer::write_bank(header(l), entries, usize::from(count), &rest[end..], out) {
        Err(e) => u64::from(u8::from(e)) * 0x1_0000_0000,
        Ok(len) => len as u64,
    }
}

fn write_rest(l: &[u8], out: &mut [u8]) -> u64
    ensures { Left (bank_of l.now (rest_at l.now) (length out.old)) out.old out.new result }
{
    let mut rest = [0u8; 4096];
    let n = rest_len(l.len());
    bytes_from(l, 14, n, &mut rest);
    write(l, &rest[..n], out)
}

fn room(wide: u16) -> usize
    ensures { result ≡ min wide 4096 }
{
    usize::from(wide).min(4096)
}

fn blank() -> [u8; 4096]
    ensures { result ≡ replicate 4096 0xA5 }
{
    [0xa5u8; 4096]
}

// Record 83, from the front of the buffer on.
pub fn bank(l: &[u8], out: &mut [u8; 262144]) -> usize
    ensures { Wrote out.old 0 (bank_text l.now) out.new result }
{
    let n = room(wide_at(l, 11));
    let mut cells = blank();
    let word = write_rest(l, &mut cells[..n]);
    put_cells(out, word, 10, &cells[..n])
}
