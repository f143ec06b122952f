// A run over a script's lines: each is answered, told in the account and heard in the file.
ghost use Rattle.std.specs.Prelude.{◌≡◌, ◌≤◌, length};
ghost use Rattle.render.specs.Runs.{rate_in};

use crate::file::{add, room_for};
use crate::input::Source;
use crate::problems;
use crate::sound_file::SoundFile;
use render_texts::{Clock, Text};
use replay_session::Session;
use std::io::Read;

// How much of a line is kept (in a fixed buffer: there is no heap), how many lines there were, the sound, and the session.
#[derive(Clone, Copy)]
pub struct Run<'a> {
    pub line: usize,
    pub number: u64,
    pub file: SoundFile<'a>,
    pub session: Session,
}

// An answer, a line's cells, and the cells' bytes that are held back.
#[derive(Drop)]
pub struct Buffers {
    pub out: [u8; 262144],
    pub cells: [i16; 4096],
    pub kept: [u8; 65536],
}

// The rate of the box that is open, or 0.
pub fn rate_of(s: &Session) -> u32
    ensures { result ≡ rate_in s.now.held }
{
    s.held().map_or(0, |b| b.config().sample_rate_hz)
}

pub fn print(rt: &impl Print, t: Text)
    requires { t.len ≤ 256 }
{
    let bytes = t.bytes;
    let _ = rt.write_all(&bytes[..t.len]);
}

fn told(rt: &impl Print, l: &[u8], answer: &[u8], before: &Session, c: Clock) {
    print(rt, render_account::tell(l, answer, before.held(), c));
    print(rt, render_account::waits::tell_waiting(l, answer, c));
}

// Who left the line while the line's frames were made.
fn moved(rt: &impl Print, before: &Session, after: &Session, c: Clock) {
    if let Some(old) = before.held() {
        if let Some(new) = after.held() {
            print(rt, render_account::waits::tell_moved(old, new, c));
        }
    }
}

// Answers a line and tells it in the account, at a time in the sound, of the session before it. None where it is no record, which ends the run.
fn answered(
    rt: &(impl Print + Eprint),
    r: &mut Run<'_>,
    l: &[u8],
    before: &Session,
    c: Clock,
    b: &mut Buffers,
) -> Option<()> {
    let a = r.session.answer(l, &mut b.out);
    if !a.more {
        problems::bad_line(rt, r.number);
        return None;
    }
    told(rt, l, &b.out, before, c);
    Some(())
}

// A line's cells. None where they cannot go on to the file, or the writing goes wrong.
fn heard(
    rt: &impl Eprint,
    r: &mut Run<'_>,
    rate: u32,
    cells: &[i16],
    kept: &mut [u8; 65536],
) -> Option<()>
    requires { length cells.now ≤ 4096 }
{
    let before = r.file;
    let room = room_for(before.clock, rate, cells.len());
    problems::has_room(rt, room, r.number)?;
    let file = add(before, rate, cells, kept);
    problems::progress(rt, before.clock, file.clock);
    r.file = file;
    file.written.ok()
}

// One line: what it sounds like from here on, then what it does, and who left the line in its frames.
fn line_done(rt: &(impl Print + Eprint), r: &mut Run<'_>, l: &[u8], b: &mut Buffers) -> Option<()> {
    r.line = 0;
    r.number = r.number.wrapping_add(1);
    let before = r.session.copied();
    let n = render_sounds::sound(l, &before, &mut b.cells);
    if n > 0 {
        heard(rt, r, rate_of(&before), &b.cells[..n], &mut b.kept)?;
    }
    let c = r.file.clock;
    answered(rt, r, l, &before, c, b)?;
    if n > 0 {
        moved(rt, &before, &r.session, c);
    }
    Some(())
}

// The lines that end in the chunk, and what it begins of the next. A line that fills its 8,195 bytes is bad wherever it ends. By the place
// in the chunk, which is where a line stopped.
fn feed(
    rt: &(impl Print + Eprint),
    r: &mut Run<'_>,
    chunk: &[u8],
    line: &mut [u8; 8195],
    b: &mut Buffers,
) -> Option<()> {
    let mut i = 0;
    while i < chunk.len() {
        let f = input_lines::fill(line, r.line, chunk, i);
        i = f.next;
        r.line = f.line;
        if f.ended {
            line_done(rt, r, line.get(..f.line)?, b)?;
        }
    }
    Some(())
}

// Reads once and does the lines that ended; None at the end of the run. At the end of the input a last line may lack its newline.
pub fn read_some(
    rt: &(impl Print + Eprint),
    input: &mut Source,
    r: &mut Run<'_>,
    line: &mut [u8; 8195],
    b: &mut Buffers,
) -> Option<()> {
    let mut chunk = [0u8; 65536];
    let got = match input.read(&mut chunk) {
        Ok(n) => n,
        Err(error) => {
            problems::fail(rt, "render: the script", error);
            return None;
        }
    };
    if got > 0 {
        return feed(rt, r, &chunk[..got], line, b);
    }
    if r.line > 0 {
        line_done(rt, r, line.get(..r.line)?, b)?;
    }
    None
}
