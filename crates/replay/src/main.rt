// Reads a script on standard input and writes the answers to standard output. What a line does and what is answered to it is the
// library's.
#![tactic(auto)]

use replay_session::Session;
use std::io::Read;

// How much of a line is kept, how many bytes of answers are held back, and the session.
#[derive(Drop)]
struct Run {
    line: usize,
    held: usize,
    session: Session,
}

// An answer, and the answers that are held back.
#[derive(Drop)]
struct Buffers {
    out: [u8; 262144],
    kept: [u8; 65536],
}

// Writes the first n bytes; None where that goes wrong.
fn write_front(rt: &impl Print, s: &[u8], n: usize) -> Option<()> {
    rt.write_all(s.get(..n)?).ok()
}

// Holds an answer of n bytes back. Where it does not fit, what is held is written first, and then the answer; None where that goes wrong.
fn keep(rt: &impl Print, r: &mut Run, n: usize, b: &mut Buffers) -> Option<()> {
    let at = r.held;
    let answer = b.out.get(..n)?;
    if n <= 65536 && at <= 65536 - n {
        b.kept[at..at + n].copy_from_slice(answer);
        r.held = at + n;
        return Some(());
    }
    r.held = 0;
    write_front(rt, &b.kept, at)?;
    rt.write_all(answer).ok()
}

// None where the run ends with the line.
fn answered(rt: &impl Print, r: &mut Run, line: &[u8], b: &mut Buffers) -> Option<()> {
    let a = r.session.answer(line, &mut b.out);
    r.line = 0;
    keep(rt, r, a.len, b)?;
    if a.more { Some(()) } else { None }
}

// The lines that end in the chunk, and what it begins of the next. A line that fills its 8,195 bytes is bad wherever it ends. By the place
// in the chunk, which is where a line stopped.
fn feed(
    rt: &impl Print,
    r: &mut Run,
    chunk: &[u8],
    line: &mut [u8; 8195],
    b: &mut Buffers,
) -> Option<()> {
    let mut i = 0;
    while i < chunk.len() {
        let f = input_lines::fill(line, r.line, chunk, i);
        i = f.next;
        r.line = f.line;
        if f.ended {
            answered(rt, r, line.get(..f.line)?, b)?;
        }
    }
    Some(())
}

// Reads once and answers the lines that ended; None at the end of the run. At the end of the input a last line may lack its newline. A
// read that fails ends the input.
fn read_some(
    rt: &impl Print,
    input: &mut impl Read,
    r: &mut Run,
    line: &mut [u8; 8195],
    b: &mut Buffers,
) -> Option<()> {
    let mut chunk = [0u8; 65536];
    let got = input.read(&mut chunk).unwrap_or(0);
    if got > 0 {
        return feed(rt, r, &chunk[..got], line, b);
    }
    if r.line > 0 {
        answered(rt, r, line.get(..r.line)?, b)?;
    }
    None
}

// A proved loop has to end, and nothing says that the input does: the turns are counted to a number that no run reaches.
fn main(rt: HostRuntime) {
    let mut input = rt.stdin();
    let mut line = [0u8; 8195];
    let mut b = Buffers {
        out: [0; 262144],
        kept: [0; 65536],
    };
    let mut r = Run {
        line: 0,
        held: 0,
        session: Session::new(),
    };
    for _ in 0..u64::MAX {
        if read_some(&rt, &mut input, &mut r, &mut line, &mut b).is_none() {
            break;
        }
    }
    let _ = write_front(&rt, &b.kept, r.held);
}
