// render OUT.wav [SCRIPT]: runs a replay script, writes what it sounds like to OUT.wav and a short account to standard output. What a
// line does is `replay_session`'s, what it sounds like is `render_sounds`', what is told of it is `render_account`'s, and how a file is laid out is `wav`'s.
#![tactic(auto)]

mod file;
mod input;
mod problems;
mod runs;
mod sound_file;

ghost use Rattle.std.specs.Prelude.{◌≡◌, ◌≤◌};
ghost use Rattle.render.specs.Files.{rate_of_none, last_clock};

use file::{both, flushed, write_header};
use input::Source;
use render_texts::Clock;
use replay_session::Session;
use runs::{Buffers, Run, print, rate_of, read_some};
use sound_file::SoundFile;
use std::env::FillError;
use std::fs::File;
use std::io::Write;
use std::rt::Env;
use std::str;

// Whether the program was started with a word at this place; its own name is at 0.
fn is_given(rt: &impl Env, i: usize) -> bool {
    let mut room = [0u8; 1];
    !matches!(rt.arg(i, &mut room), Err(FillError::NotPresent))
}

// Puts a word at the front and says how long it is: 0 where it is missing or too long.
fn word(rt: &impl Env, i: usize, name: &mut [u8; 4096]) -> usize
    ensures { result ≤ 4096 }
{
    rt.arg(i, name).unwrap_or(0)
}

// The script: the second word's file, or else standard input. None where it cannot be opened.
fn script(rt: &HostRuntime) -> Option<Source> {
    if !is_given(rt, 2) {
        return Some(Source::Input(rt.stdin()));
    }
    let mut name = [0u8; 4096];
    let n = word(rt, 2, &mut name);
    let Ok(path) = str::from_utf8(&name[..n]) else {
        problems::no_text(rt);
        return None;
    };
    match File::open(rt, path) {
        Ok(file) => Some(Source::Named(file)),
        Err(error) => {
            problems::fail(rt, path, error);
            None
        }
    }
}

// The rate of a file without frames: the engine's at the end, or one that players take where that is 0.
fn rate_of_none(rate: u32) -> u32
    ensures { result ≡ rate_of_none rate }
{
    if rate == 0 { 44100 } else { rate }
}

// What the header says of the sound that was made.
fn last_clock(rt: &impl Eprint, c: Clock, rate: u32) -> Clock
    ensures { result ≡ last_clock c rate }
{
    if c.frames > 0 {
        return c;
    }
    problems::no_frames(rt);
    Clock {
        frames: 0,
        rate: rate_of_none(rate),
    }
}

// Writes what is held back and the header, and says how much sound there is.
fn finish(rt: &(impl Print + Eprint), path: &str, f: SoundFile<'_>, rate: u32, kept: &[u8; 65536]) {
    let g = flushed(f, kept);
    let clock = last_clock(rt, g.clock, rate);
    match both(g.written, write_header(g.file, clock)) {
        Ok(()) => print(rt, render_account::total(clock)),
        Err(error) => problems::fail(rt, path, error),
    }
}

// A proved loop has to end, and nothing says that the input does: the turns are counted to a number that no run reaches.
fn run_all(rt: &(impl Print + Eprint), path: &str, input: &mut Source, file: &File) {
    let mut line = [0u8; 8195];
    let mut b = Buffers {
        out: [0; 262144],
        cells: [0; 4096],
        kept: [0; 65536],
    };
    let file = SoundFile {
        file,
        clock: Clock { frames: 0, rate: 0 },
        held: 0,
        written: Ok(()),
    };
    let mut r = Run {
        line: 0,
        number: 0,
        file,
        session: Session::new(),
    };
    for _ in 0..u64::MAX {
        if read_some(rt, input, &mut r, &mut line, &mut b).is_none() {
            break;
        }
    }
    finish(rt, path, r.file, rate_of(&r.session), &b.kept);
}

// The header goes first, with no frames, so that the cells stand behind it.
fn render_to(rt: &HostRuntime, path: &str) {
    let Some(mut input) = script(rt) else {
        return;
    };
    let mut file = match File::create(rt, path) {
        Ok(file) => file,
        Err(error) => {
            problems::fail(rt, path, error);
            return;
        }
    };
    let bytes = wav::header(0, 0).unwrap_or([0; 44]);
    match file.write_all(&bytes) {
        Ok(()) => run_all(rt, path, &mut input, &file),
        Err(error) => problems::fail(rt, path, error),
    }
}

fn main(rt: HostRuntime) {
    let mut name = [0u8; 4096];
    let n = word(&rt, 1, &mut name);
    if n == 0 || is_given(&rt, 3) {
        problems::usage(&rt);
        return;
    }
    match str::from_utf8(&name[..n]) {
        Ok(path) => render_to(&rt, path),
        Err(_) => problems::no_text(&rt),
    }
}
