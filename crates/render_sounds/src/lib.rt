// What a line of a replay script sounds like. The session's own answer moves the run on; the sound is worked out beside it, on a copy of
// the box.
#![tactic(auto)]

ghost use Rattle.std.specs.Prelude.{◌≡◌};
ghost use Rattle.render_sounds.specs.Sounds.{shape_of, filled_frames, is_one_frame, frames_for, frames_of, sound_of, Sounds};

use buffers::Shape;
use hex_digits::{all_digits, byte_at, wide_at};
use replay_fills::Buffer;
use replay_session::Session;

// Codes stay numbers here, as the format has them: each of these tests is the format's own list of records, and no two are alike.
#[tactic(auto, using(std::proofs::lemmas::Bool::Decides::nat_tests))]
fn shape_of(code: u8) -> Shape
    ensures { result ≡ shape_of code }
{
    match code {
        0x29..=0x2b | 0x68 => Shape::Sides,
        _ => Shape::Doubled,
    }
}

#[tactic(auto, using(std::proofs::lemmas::Bool::Decides::nat_tests), unfolding(crate::specs::Sounds::filled_frames))]
fn filled_frames(code: u8, l: &[u8]) -> usize
    ensures { result ≡ filled_frames code l.now }
{
    if !replay_session::fill_allowed(l) {
        return 0;
    }
    let cells = wide_at(l, 1) as usize;
    if code <= 0x26 { cells } else { cells / 2 }
}

#[tactic(auto, using(std::proofs::lemmas::Bool::Decides::nat_tests))]
fn is_one_frame(code: u8, l: &[u8]) -> bool
    ensures { result ≡ is_one_frame code l.now }
{
    l.len() == 2 && matches!(code, 0x2b | 0x2c | 0x66 | 0x67 | 0x68)
}

#[tactic(auto, unfolding(crate::specs::Sounds::frames_for))]
fn frames_for(code: u8, l: &[u8]) -> usize
    ensures { result ≡ frames_for code l.now }
{
    if Buffer::of(code).is_some() {
        return filled_frames(code, l);
    }
    if is_one_frame(code, l) { 1 } else { 0 }
}

// How many frames the line makes of a box.
#[tactic(auto, using(std::proofs::lemmas::Bool::Decides::nat_tests), unfolding(crate::specs::Sounds::frames_of))]
fn frames(l: &[u8]) -> usize
    ensures { result ≡ frames_of l.now }
{
    if l.len() > 8194 || !all_digits(l) {
        return 0;
    }
    frames_for(byte_at(l, 0), l)
}

// How many cells the line sounds; they stand at the front of the buffer, and the rest is as before.
pub fn sound(line: &[u8], s: &Session, out: &mut [i16; 4096]) -> usize
    ensures { Sounds (sound_of s.now line.now) out.old out.new result }
{
    let Some(held) = s.held() else {
        return 0;
    };
    let cells = 2 * frames(line);
    let mut b = held.copied();
    b.fill(s.lent(), shape_of(byte_at(line, 0)), &mut out[..cells])
}
