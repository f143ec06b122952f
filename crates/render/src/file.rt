// The sound file: frames that are held back and written, the header once all are counted.
ghost use Rattle.std.specs.Prelude.{◌≡◌, ◌≤◌, ◌↔◌, length, IsOk};
ghost use Rattle.render.specs.Files.{more_frames, other_rate, room_for, held_count, Kept, Adds};

use crate::sound_file::SoundFile;
use render_texts::Clock;
use std::fs::File;
use std::io;
use std::io::Write;
use std::os::unix::fs::FileExt;
use wav::put_cells;

// Why frames cannot go on to a file.
#[derive(Clone, Copy)]
pub enum Misfit {
    NoRate,
    OtherRate,
    TooLong,
}

fn more_frames(frames: u32, more: usize) -> u32
    ensures { result ≡ more_frames frames more }
{
    frames.saturating_add(more.min(0xffff_ffff) as u32)
}

fn other_rate(c: Clock, rate: u32) -> bool
    ensures { result ≡ other_rate c rate }
{
    c.frames > 0 && c.rate != rate
}

// Whether so many cells at a rate can go on to what a file has.
#[tactic(auto, using(crate::proofs::Holding::headers), unfolding(crate::specs::Files::room_for))]
pub fn room_for(c: Clock, rate: u32, cells: usize) -> Result<(), Misfit>
    ensures { result ≡ room_for c rate cells }
{
    if rate == 0 {
        return Err(Misfit::NoRate);
    }
    if other_rate(c, rate) {
        return Err(Misfit::OtherRate);
    }
    match wav::header(rate, more_frames(c.frames, cells / 2)) {
        Some(_) => Ok(()),
        None => Err(Misfit::TooLong),
    }
}

// Two steps in turn: how both went, by the later error.
pub fn both(a: io::Result<()>, b: io::Result<()>) -> io::Result<()>
    ensures { IsOk result ↔ IsOk a × IsOk b }
{
    if b.is_ok() { a } else { b }
}

// Writes what is held back.
pub fn flushed<'a>(f: SoundFile<'a>, kept: &[u8; 65536]) -> SoundFile<'a>
    ensures { Kept f.entry 0 f.entry.clock result }
{
    let n = f.held;
    let mut file = f.file;
    let written = both(f.written, file.write_all(&kept[..n]));
    SoundFile {
        file: f.file,
        clock: f.clock,
        held: 0,
        written,
    }
}

// A file with room for a line's cells.
fn with_room<'a>(f: SoundFile<'a>, kept: &[u8; 65536]) -> SoundFile<'a>
    ensures { Kept f.entry (held_count f.entry.held) f.entry.clock result }
{
    if f.held <= 57344 { f } else { flushed(f, kept) }
}

// A line's cells, behind what is held back.
pub fn add<'a>(f: SoundFile<'a>, rate: u32, cells: &[i16], kept: &mut [u8; 65536]) -> SoundFile<'a>
    requires { length cells.now ≤ 4096 }
    ensures { Adds f.entry rate cells.now kept.old kept.new result }
{
    let g = with_room(f, &*kept);
    let at = g.held;
    let c = g.clock;
    let got = put_cells(cells, &mut kept[at..]);
    let clock = Clock {
        frames: more_frames(c.frames, cells.len() / 2),
        rate,
    };
    SoundFile {
        file: g.file,
        clock,
        held: at + got,
        written: g.written,
    }
}

// The first bytes of the file, in their place whatever was written after them.
pub fn write_header(file: &File, c: Clock) -> io::Result<()> {
    let bytes = wav::header(c.rate, c.frames).unwrap_or([0; 44]);
    file.write_all_at(&bytes, 0)
}
