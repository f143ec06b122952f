// Digits of a line, and answers as digits.
#![tactic(auto)]

ghost use Rattle.std.specs.Prelude.{◌≡◌, ◌++◌, ◌+◌, ◌≤◌, ◌<◌, min, get_or};
ghost use Rattle.std.proofs.lemmas.List.Edits.{sets};
ghost use Rattle.hex_digits.specs.Hex.{is_digit, all_digits, digit_of, byte_at, wide_at, long_at, three_at, bytes_from, digit_char, hex_of, four_of, newline, Laid, Wrote};

#[tactic(auto, unfolding(crate::specs::Hex::between))]
fn is_digit(c: u8) -> bool
    ensures { result ≡ is_digit c }
{
    matches!(c, b'0'..=b'9' | b'A'..=b'F')
}

pub fn all_digits(l: &[u8]) -> bool
    ensures { result ≡ all_digits l.now }
{
    l.iter().all(|&c| is_digit(c))
}

// Total, as the records are read: what is no digit counts as 0. An Option would be unwrapped to 0 at each use.
#[tactic(auto, unfolding(crate::specs::Hex::digit_of, crate::specs::Hex::between))]
fn digit(c: u8) -> u8
    ensures { (result ≡ digit_of c) × (result < 16) }
{
    match c {
        b'0'..=b'9' => c - b'0',
        b'A'..=b'F' => c - b'A' + 10,
        _ => 0,
    }
}

// What stands at a place of the line, 0 past its end.
fn at(l: &[u8], i: usize) -> u8
    ensures { result ≡ get_or l.now i 0 }
{
    l.get(i).copied().unwrap_or(0)
}

// The fields of one byte, two, four and three, from byte k on; past the line's end there are no digits to look at.
// One function for each: a generic one would give u64 to all, and each field has its own type here.
#[tactic(auto, using(crate::proofs::Texts::no_byte))]
pub fn byte_at(l: &[u8], k: usize) -> u8
    ensures { result ≡ byte_at l.now k }
{
    if k > l.len() / 2 {
        return 0;
    }
    16 * digit(at(l, 2 * k)) + digit(at(l, 2 * k + 1))
}

#[tactic(auto, using(crate::proofs::Texts::no_wide))]
pub fn wide_at(l: &[u8], k: usize) -> u16
    ensures { result ≡ wide_at l.now k }
{
    if k > l.len() / 2 {
        return 0;
    }
    256 * u16::from(byte_at(l, k)) + u16::from(byte_at(l, k + 1))
}

#[tactic(auto, using(crate::proofs::Texts::no_long))]
pub fn long_at(l: &[u8], k: usize) -> u32
    ensures { result ≡ long_at l.now k }
{
    if k > l.len() / 2 {
        return 0;
    }
    65536 * u32::from(wide_at(l, k)) + u32::from(wide_at(l, k + 2))
}

#[tactic(auto, using(crate::proofs::Texts::no_three))]
pub fn three_at(l: &[u8], k: usize) -> u32
    ensures { result ≡ three_at l.now k }
{
    if k > l.len() / 2 {
        return 0;
    }
    256 * u32::from(wide_at(l, k)) + u32::from(byte_at(l, k + 2))
}

// So many bytes of a line from byte k on, into as many cells; no more than there are cells. The cells are lent, since there is no heap.
pub fn bytes_from(l: &[u8], k: u8, n: usize, cells: &mut [u8; 4096])
    ensures { cells.new ≡ sets cells.old 0 (bytes_from l.now k (min n 4096)) }
{
    for (i, cell) in cells[..n.min(4096)].iter_mut().enumerate() {
        *cell = byte_at(l, usize::from(k) + i);
    }
}

fn digit_char(n: u8) -> u8
    requires { n < 16 }
    ensures { result ≡ digit_char n }
{
    if n < 10 { b'0' + n } else { b'A' + (n - 10) }
}

// Here and below a line is put into one fixed buffer, since there is no heap; the place goes on from call to call, as a Vec's length would.
// The low digits of the value from a place on, the last one first; a digit past the buffer's end is left out. It gives the place after
// them.
pub fn put(out: &mut [u8; 262144], at: usize, value: u64, digits: u8) -> usize
    ensures { Laid out.old at (hex_of digits value) out.new result × (result ≤ at + digits) }
{
    if at >= 262144 {
        return at;
    }
    let end = at + usize::from(digits);
    let mut rest = value;
    for place in (at..end).rev() {
        if place < 262144 {
            out[place] = digit_char((rest % 16) as u8);
        }
        rest /= 16;
    }
    end.min(262144)
}

pub fn put_four(out: &mut [u8; 262144], at: usize, a: u64, b: u64, c: u64, d: u64) -> usize
    ensures { Laid out.old at (four_of a b c d) out.new result × (result ≤ at + 64) }
{
    let n1 = put(out, at, a, 16);
    let n2 = put(out, n1, b, 16);
    let n3 = put(out, n2, c, 16);
    put(out, n3, d, 16)
}

pub fn end_line(out: &mut [u8; 262144], at: usize) -> usize
    ensures { Laid out.old at newline out.new result × (result ≤ at + 1) }
{
    if at >= 262144 {
        return at;
    }
    out[at] = b'\n';
    at + 1
}

// A first line: the value's digits and the line's end.
pub fn put_line(out: &mut [u8; 262144], value: u64, digits: u8) -> usize
    ensures { Wrote out.old 0 (hex_of digits value ++ newline) out.new result × (result ≡ digits + 1) }
{
    let n = put(out, 0, value, digits);
    end_line(out, n)
}
