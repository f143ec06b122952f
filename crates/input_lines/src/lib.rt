// Input that comes in chunks, cut into lines.
#![tactic(auto)]

ghost use Rattle.std.specs.Prelude.{drop};
ghost use Rattle.input_lines.specs.Lines.{lined, Fills};

// How much of a line is kept, the place in the chunk after what was read, and whether the line ended.
// Not an Option of the length: where the line goes on, its length is wanted too.
#[derive(Clone, Copy, Debug, PartialEq, Eq)]
pub struct Filled {
    pub line: usize, // the line itself is its caller's memory, since there is no heap
    pub next: usize,
    pub ended: bool,
}

// Bytes of the chunk, from a place on, go onto a line of which some bytes are kept already.
// By index: tried `enumerate().skip(from)`, and the proof did not close, since that loop's state is an iterator within an iterator.
pub fn fill(line: &mut [u8], at: usize, chunk: &[u8], from: usize) -> Filled
    ensures { Fills (lined line.old at from (drop from chunk.now)) line.new result }
{
    let mut n = at;
    for i in from..chunk.len() {
        let b = chunk[i];
        if b == b'\n' || n >= line.len() {
            return Filled {
                line: n,
                next: i + 1,
                ended: true,
            };
        }
        line[n] = b;
        n += 1;
    }
    Filled {
        line: n,
        next: from.max(chunk.len()),
        ended: false,
    }
}
