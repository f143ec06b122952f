// Reads a list of lines on standard input and writes the answers to standard output. What a line does and what is answered to it
// is the library's.
#![tactic(auto)]

use sounder::Sounder;
use std::io::Read;

// Writes the first n bytes; None where that goes wrong.
fn write_front(rt: &impl Print, s: &[u8], n: usize) -> Option<()> {
    rt.write_all(s.get(..n)?).ok()
}

// None where the run ends with the line.
fn answered(rt: &impl Print, s: &mut Sounder, line: &[u8], out: &mut [u8; 262144]) -> Option<()> {
    let a = framelist_answers::answer(line, s, out);
    write_front(rt, &*out, a.len)?;
    if a.more { Some(()) } else { None }
}

// The lines that end in the chunk, and how much it begins of the next; none where the run ends. A line that fills its 17 bytes is bad wherever it ends.
// By the place in the chunk, which is where a line stopped: a `for` over its bytes would be no plainer.
fn feed(
    rt: &impl Print,
    s: &mut Sounder,
    kept: usize,
    chunk: &[u8],
    line: &mut [u8; 17],
    out: &mut [u8; 262144],
) -> Option<usize> {
    let mut n = kept;
    let mut i = 0;
    while i < chunk.len() {
        let f = input_lines::fill(line, n, chunk, i);
        i = f.next;
        n = f.line;
        if f.ended {
            answered(rt, s, line.get(..n)?, out)?;
            n = 0;
        }
    }
    Some(n)
}

// Reads once and answers the lines that ended. At the end of the input a last line may lack its newline. A read that fails ends the
// input.
fn read_some(
    rt: &impl Print,
    input: &mut impl Read,
    s: &mut Sounder,
    kept: usize,
    line: &mut [u8; 17],
    out: &mut [u8; 262144],
) -> Option<usize> {
    let mut chunk = [0u8; 65536];
    let got = input.read(&mut chunk).unwrap_or(0);
    if got > 0 {
        return feed(rt, s, kept, &chunk[..got], line, out);
    }
    if kept > 0 {
        answered(rt, s, line.get(..kept)?, out)?;
    }
    None
}

// A proved loop has to end, and nothing says that the input does: the turns are counted to a number that no run reaches.
fn main(rt: HostRuntime) {
    let mut input = rt.stdin();
    let mut line = [0u8; 17];
    let mut out = [0u8; 262144];
    let mut s = framelist_answers::start();
    let mut kept = Some(0);
    for _ in 0..u64::MAX {
        let Some(n) = kept else {
            break;
        };
        kept = read_some(&rt, &mut input, &mut s, n, &mut line, &mut out);
    }
}
