// A voice alone: how it starts, its frames, and what is printed of them.
ghost use Rattle.std.specs.Prelude.{◌≡◌, ◌+◌, ◌*◌, ◌≤◌};
ghost use Rattle.laws.specs.Made.{Made};
ghost use Rattle.voice.specs.Voices.{Valid, ValidStep};
ghost use Rattle.hex_digits.specs.Hex.{long_at, Laid, Wrote};
ghost use Rattle.replay_leaves.specs.Replies.{voice_reply};
ghost use Rattle.replay_leaves.specs.Runs.{stepped, texts};
ghost use Rattle.replay_leaves.specs.Voices.{voice_at, let_go_if, held_at, passed_frame, mono_frame, stereo_frame, frame_text, left_number, right_number, pair_of, pair_text, frames_text, frames_last, voice_run, voice_text};

use crate::Reply;
use crate::sounds::{given_number, printed_at, source_at, waveforms};
use fixed::Step;
use hex_digits::{byte_at, end_line, long_at, put, put_line, three_at, wide_at};
use replay_fields::{flag_number, put_voice, spec_at};
use voice::Voice;

// A voice after some frames, and the place after their texts.
#[derive(Clone, Copy, Debug, PartialEq)]
struct Framed {
    voice: Voice,
    next: usize,
}

#[tactic(auto, using(std::proofs::lemmas::Bool::Decides::nat_tests), unfolding(crate::specs::Replies::voice_reply))]
pub(crate) fn voice_reply(l: &[u8]) -> Reply
    ensures { result ≡ voice_reply l.now }
{
    let count = waveforms(byte_at(l, 1));
    if byte_at(l, 8) >= count {
        return Reply::Bad;
    }
    if byte_at(l, 22) > 1 {
        return Reply::Bad;
    }
    if byte_at(l, 26) > 1 {
        return Reply::Bad;
    }
    if wide_at(l, 27) <= 16000 {
        Reply::Voice
    } else {
        Reply::Bad
    }
}

// Here and below the line's rate is one that a voice takes, as `voice` has looked. A type for such a line would be made and read in this
// file alone.
fn voice_at(l: &[u8]) -> Voice
    requires { long_at l.now 9 ≤ 65537 }
    ensures { Made Valid (voice_at l.now) result }
{
    let silent = Voice::silent(long_at(l, 9));
    let source = source_at(l);
    let started = Voice { source, ..silent };
    let gained = started.set_gain_q8(byte_at(l, 20));
    let panned = gained.set_pan_q8(byte_at(l, 21));
    panned.trigger_adsr(spec_at(l, 13))
}

// Frames that are not printed.
fn passed(first: Voice, count: u32) -> Voice
    requires { Valid first }
    ensures { Made Valid (stepped passed_frame count first) result }
{
    let mut voice = first;
    for _ in 0..count {
        voice = voice.tick_envelope().next_sample().voice;
    }
    voice
}

#[tactic(auto, using(std::proofs::lemmas::Bool::Decides::nat_tests))]
fn let_go(release: u8, v: Voice) -> Voice
    requires { Valid v }
    ensures { Made Valid (let_go_if release v) result }
{
    if release == 1 { v.release() } else { v }
}

// The voice before the frames that are printed.
#[tactic(auto, unfolding(crate::specs::Voices::held_at))]
fn held_at(l: &[u8]) -> Voice
    requires { long_at l.now 9 ≤ 65537 }
    ensures { Made Valid (held_at l.now) result }
{
    let voice = passed(voice_at(l), three_at(l, 23));
    let_go(byte_at(l, 26), voice)
}

// Here and below a buffer and a place in it, as `hex_digits::put` has them: there is no heap for a Vec.
fn frames(out: &mut [u8; 262144], at: usize, first: Step<Voice, Option<i8>>, count: u16) -> Framed
    requires { ValidStep first }
    ensures laid { Laid out.old at (texts mono_frame frame_text count first) out.new result.next }
    ensures next_bound { result.next ≤ at + 4 * count }
    ensures made { Made Valid (stepped mono_frame count first).voice result.voice }
{
    let mut last = first;
    let mut next = at;
    for _ in 0..count {
        last = last.voice.tick_envelope().next_sample();
        next = put(out, next, given_number(last.given), 4);
    }
    Framed {
        voice: last.voice,
        next,
    }
}

fn left_number(g: Option<(i8, i8)>) -> u64
    ensures { result ≡ left_number g }
{
    g.map_or(256, |(left, _)| u64::from(left.cast_unsigned()))
}

fn right_number(g: Option<(i8, i8)>) -> u64
    ensures { result ≡ right_number g }
{
    g.map_or(0, |(_, right)| u64::from(right.cast_unsigned()))
}

fn put_pair(out: &mut [u8; 262144], at: usize, g: Option<(i8, i8)>) -> usize
    ensures { Laid out.old at (pair_of g) out.new result × (result ≤ at + 6) }
{
    let n = put(out, at, left_number(g), 4);
    put(out, n, right_number(g), 2)
}

fn pairs(
    out: &mut [u8; 262144],
    at: usize,
    first: Step<Voice, Option<(i8, i8)>>,
    count: u16,
) -> Framed
    requires { ValidStep first }
    ensures laid { Laid out.old at (texts stereo_frame pair_text count first) out.new result.next }
    ensures next_bound { result.next ≤ at + 6 * count }
    ensures made { Made Valid (stepped stereo_frame count first).voice result.voice }
{
    let mut last = first;
    let mut next = at;
    for _ in 0..count {
        last = last.voice.tick_envelope().next_stereo_sample();
        next = put_pair(out, next, last.given);
    }
    Framed {
        voice: last.voice,
        next,
    }
}

// On one side or on two.
fn put_frames(out: &mut [u8; 262144], at: usize, stereo: u8, voice: Voice, count: u16) -> Framed
    requires valid { Valid voice }
    requires count_bound { count ≤ 16000 }
    ensures laid { Laid out.old at (frames_text stereo count voice) out.new result.next }
    ensures next_bound { result.next ≤ at + 96000 }
    ensures made { Made Valid (frames_last stereo count voice) result.voice }
{
    if stereo == 1 {
        let first = Step { voice, given: None };
        pairs(out, at, first, count)
    } else {
        let first = Step { voice, given: None };
        frames(out, at, first, count)
    }
}

fn run_voice(l: &[u8], out: &mut [u8; 262144]) -> usize
    requires { long_at l.now 9 ≤ 65537 }
    ensures { Wrote out.old 0 (voice_run l.now) out.new result }
{
    let n = put_line(out, 0, 2);
    let held = held_at(l);
    let to = put_frames(out, n, byte_at(l, 22), held, printed_at(l, 27));
    let state = put_voice(out, to.next, to.voice);
    let end = put(out, state, flag_number(to.voice.is_audible()), 2);
    end_line(out, end)
}

#[tactic(auto, using(std::proofs::lemmas::Bool::Decides::nat_tests), unfolding(crate::specs::Voices::voice_text))]
pub(crate) fn voice(l: &[u8], out: &mut [u8; 262144]) -> usize
    ensures { Wrote out.old 0 (voice_text l.now) out.new result }
{
    if long_at(l, 9) <= 65537 {
        run_voice(l, out)
    } else {
        put_line(out, 2, 2)
    }
}
