// Answers to a script's lines: records 40 to 48 of the replay format, our own 50 to 6A, and 80 to 86 of document 02's requests.
#![tactic(auto)]

ghost use Rattle.std.specs.Prelude.{◌≡◌};
ghost use Rattle.replay_leaves.specs.Replies.{sized, duties_reply, pattern_reply, recording_reply, bank_reply, added_reply, own_reply, reply_for, reply_of};
ghost use Rattle.replay_leaves.specs.Answers.{Answers};

use hex_digits::{all_digits, byte_at, put_line, wide_at};

mod leaves;
mod outputs;
mod planning;
mod runs;
mod sounds;
mod voices;

// What is answered to a line: that it is bad, a number in so many digits, or one of the runs.
#[derive(Clone, Copy, Debug, PartialEq, Eq)]
pub enum Reply {
    Bad,
    Word { value: u64, digits: u8 },
    Levels,
    State,
    Duties,
    Source,
    Voice,
    Restored,
    Pattern,
    Recording,
    Bank,
    Counts,
}

// How many bytes the answer has, in its caller's memory, and whether the run goes on. Not an Option of the length: what a bad line is
// answered is written too.
#[derive(Clone, Copy, Debug, PartialEq, Eq)]
pub struct Answered {
    pub len: usize,
    pub more: bool,
}

// A record of another length is bad.
#[tactic(auto, using(std::proofs::lemmas::Bool::Decides::nat_tests))]
fn sized(digits: usize, bytes: u8, r: Reply) -> Reply
    ensures { result ≡ sized digits bytes r }
{
    if digits == 2 + 2 * usize::from(bytes) {
        r
    } else {
        Reply::Bad
    }
}

// 57 has any number of samples, and three modes.
#[tactic(auto, using(std::proofs::lemmas::Bool::Decides::nat_tests), unfolding(crate::specs::Replies::duties_reply))]
fn duties_reply(l: &[u8]) -> Reply
    ensures { result ≡ duties_reply l.now }
{
    let n = l.len();
    if n < 16 {
        return Reply::Bad;
    }
    if n % 2 == 1 {
        return Reply::Bad;
    }
    if byte_at(l, 1) <= 2 {
        Reply::Duties
    } else {
        Reply::Bad
    }
}

// 80 has at most 2,048 samples.
#[tactic(auto, using(std::proofs::lemmas::Bool::Decides::nat_tests), unfolding(crate::specs::Replies::pattern_reply))]
fn pattern_reply(l: &[u8]) -> Reply
    ensures { result ≡ pattern_reply l.now }
{
    if wide_at(l, 9) <= 2048 {
        Reply::Pattern
    } else {
        Reply::Bad
    }
}

// 81 has any number of bytes.
#[tactic(auto, using(std::proofs::lemmas::Bool::Decides::nat_tests), unfolding(crate::specs::Replies::recording_reply))]
fn recording_reply(l: &[u8]) -> Reply
    ensures { result ≡ recording_reply l.now }
{
    let n = l.len();
    if n < 10 {
        return Reply::Bad;
    }
    if n % 2 == 1 {
        return Reply::Bad;
    }
    Reply::Recording
}

// 83 has as many entries as it says, and any number of bytes of payloads.
#[tactic(auto, using(std::proofs::lemmas::Bool::Decides::nat_tests), unfolding(crate::specs::Replies::bank_reply))]
fn bank_reply(l: &[u8]) -> Reply
    ensures { result ≡ bank_reply l.now }
{
    let n = l.len();
    if n < 28 + 26 * usize::from(byte_at(l, 13)) {
        return Reply::Bad;
    }
    if n % 2 == 1 {
        return Reply::Bad;
    }
    if wide_at(l, 11) <= 4096 {
        Reply::Bank
    } else {
        Reply::Bad
    }
}

// By the code. Each reader is total, so a record's length is looked at last. These matches are the format's table of codes, and nothing
// else uses one: an enum with its TryFrom would be the table once more. Document 02's records:
#[tactic(auto, using(std::proofs::lemmas::Bool::Decides::nat_tests), unfolding(crate::specs::Replies::added_reply))]
fn added_reply(code: u8, l: &[u8]) -> Reply
    ensures { result ≡ added_reply code l.now }
{
    let n = l.len();
    match code {
        0x80 => sized(n, 10, pattern_reply(l)),
        0x81 => recording_reply(l),
        0x82 => sized(n, 2, leaves::gain(l, true)),
        0x83 => bank_reply(l),
        0x84 => sized(n, 6, outputs::length(l)),
        0x85 => sized(n, 10, outputs::carrying(l)),
        0x86 => sized(n, 4, Reply::Counts),
        _ => Reply::Bad,
    }
}

// Our own, of document 01's box.
#[tactic(auto, using(std::proofs::lemmas::Bool::Decides::nat_tests), unfolding(crate::specs::Replies::own_reply))]
fn own_reply(code: u8, l: &[u8]) -> Reply
    ensures { result ≡ own_reply code l.now }
{
    let n = l.len();
    match code {
        0x50 => sized(n, 4, leaves::decibels_to_gain(l)),
        0x51 => sized(n, 1, leaves::gain_to_decibels(l)),
        0x52 => sized(n, 4, leaves::phase(l)),
        0x53 => sized(n, 3, leaves::crossfade(l)),
        0x54 => sized(n, 4, leaves::clamp(l)),
        0x55 => sized(n, 1, leaves::kind(l)),
        0x56 => sized(n, 1, outputs::conversions(l)),
        0x57 => duties_reply(l),
        0x58 => sized(n, 15, Reply::State),
        0x59 => sized(n, 1, outputs::conversion_to_i32(l)),
        0x60 => sized(n, 17, sounds::source_reply(l)),
        0x61 => sized(n, 28, voices::voice_reply(l)),
        0x6A => sized(n, 11, sounds::restored_reply(l)),
        _ => added_reply(code, l),
    }
}

// The replay format's.
#[tactic(auto, using(std::proofs::lemmas::Bool::Decides::nat_tests))]
fn reply_for(code: u8, l: &[u8]) -> Reply
    ensures { result ≡ reply_for code l.now }
{
    let n = l.len();
    match code {
        0x40 => sized(n, 2, leaves::gain(l, false)),
        0x41 => sized(n, 3, leaves::lerp(l)),
        0x42 => sized(n, 4, outputs::limiter(l)),
        0x43 => sized(n, 1, leaves::pan_gains(l)),
        0x44 => sized(n, 8, leaves::phase_increment(l)),
        0x45 => sized(n, 1, leaves::sine(l)),
        0x46 => sized(n, 3, outputs::duty(l)),
        0x47 => sized(n, 6, outputs::fade_step(l)),
        0x48 => sized(n, 15, Reply::Levels),
        _ => own_reply(code, l),
    }
}

#[tactic(auto, using(std::proofs::lemmas::Bool::Decides::nat_tests), unfolding(crate::specs::Replies::reply_of))]
fn reply_of(l: &[u8]) -> Reply
    ensures { result ≡ reply_of l.now }
{
    if l.len() > 8194 {
        return Reply::Bad;
    }
    if all_digits(l) {
        reply_for(byte_at(l, 0), l)
    } else {
        Reply::Bad
    }
}

// Writes the answer at the front of the buffer, which is as long as the longest answer.
pub fn answer(line: &[u8], out: &mut [u8; 262144]) -> Answered
    ensures { Answers line.now out.old out.new result }
{
    let len = match reply_of(line) {
        Reply::Bad => {
            let len = put_line(out, 0xffff, 4);
            return Answered { len, more: false };
        }
        Reply::Word { value, digits } => put_line(out, value, digits),
        Reply::Levels => runs::levels(line, out),
        Reply::State => runs::state(line, out),
        Reply::Duties => runs::duties(line, out),
        Reply::Source => sounds::source(line, out),
        Reply::Voice => voices::voice(line, out),
        Reply::Restored => sounds::restored(line, out),
        Reply::Pattern => replay_patterns::pattern(line, out),
        Reply::Recording => replay_patterns::reader(line, out),
        Reply::Bank => replay_banks::bank(line, out),
        Reply::Counts => planning::counts(line, out),
    };
    Answered { len, more: true }
}
