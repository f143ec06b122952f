// What goes to standard error: what is refused, and how far a long run is.
ghost use Rattle.std.specs.Prelude.{◌≡◌, ◌↔◌, IsOk, IsSome};
ghost use Rattle.render.specs.Files.{tens_of};

use crate::file::Misfit;
use render_texts::Clock;
use std::io::{Cursor, Write};
use std::{io, str};

fn note(rt: &impl Eprint, words: &str) {
    let _ = rt.eprint(words);
}

pub fn usage(rt: &impl Eprint) {
    note(rt, "usage: render OUT.wav [SCRIPT]\n");
}

fn at_line(rt: &impl Eprint, number: u64, words: &str) {
    let _ = eprintln!(rt; "render: line {number}: {words}");
}

pub fn bad_line(rt: &impl Eprint, number: u64) {
    at_line(
        rt,
        number,
        "no record, or one that needs an open engine; the sound up to here is kept",
    );
}

pub fn no_frames(rt: &impl Eprint) {
    note(
        rt,
        "render: the script has no frames, and the file has none\n",
    );
}

// A name that is no text, which std opens no file by.
pub fn no_text(rt: &impl Eprint) {
    note(rt, "render: a file's name is not UTF-8\n");
}

// An error's text, without the system's number that stands behind it.
fn reason(text: &str) -> &str {
    match text.split_once(" (os error ") {
        Some((words, _)) => words,
        None => text.trim_end_matches('\0'),
    }
}

// What failed, and why.
pub fn fail(rt: &impl Eprint, what: &str, error: io::Error) {
    let mut text = Cursor::new([0u8; 512]);
    let _ = write!(text, "{error}");
    let bytes = text.into_inner();
    let words = reason(str::from_utf8(&bytes).unwrap_or(""));
    let _ = eprintln!(rt; "{what}: {words}");
}

// Says why frames cannot go on to the file, and answers whether they can.
pub fn has_room(rt: &impl Eprint, room: Result<(), Misfit>, number: u64) -> Option<()>
    ensures { IsSome result ↔ IsOk room }
{
    let Err(why) = room else {
        return Some(());
    };
    let words = match why {
        Misfit::NoRate => "frames at rate 0; the sound up to here is kept",
        Misfit::OtherRate => {
            "a file has one rate, and the rate changed after its first frame; the sound up to here is kept"
        }
        Misfit::TooLong => "the file would pass 4 GiB; the sound up to here is kept",
    };
    at_line(rt, number, words);
    None
}

fn tens(c: Clock) -> u64
    ensures { result ≡ tens_of c }
{
    if c.rate == 0 {
        return 0;
    }
    (c.frames as u64) / (10 * (c.rate as u64))
}

// At each further 10 s, on one line that whatever comes next is written over.
pub fn progress(rt: &impl Eprint, before: Clock, after: Clock) {
    let n = tens(after);
    if n > tens(before) {
        let _ = eprint!(rt; "{n}0 s of sound\r");
    }
}
