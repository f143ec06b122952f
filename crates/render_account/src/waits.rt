// What a person is told of requests that wait.
ghost use Rattle.std.specs.Prelude.{◌≡◌};
ghost use Rattle.render_texts.specs.Texts.{Says, Tells, Adds};
ghost use Rattle.render_account.specs.Waits as T;

use super::words::{ended, why};
use error::AudioError;
use hex_digits::{byte_at, wide_at};
use render_texts::{Clock, Text, at_time, count, empty, say, things};
use replay_box::OpenBox;

fn left(l: &[u8], answer: &[u8], c: Clock) -> Text
    ensures { Says (T.leave_text l.now answer.now c) result }
{
    let id = count(say(at_time(c), b"leave "), wide_at(l, 4) as u64);
    let asked = count(say(id, b" at priority "), byte_at(l, 13) as u64);
    let labelled = count(say(asked, b" under label "), wide_at(l, 1) as u64);
    ended(labelled, byte_at(answer, 0))
}

#[tactic(auto, using(render_texts::proofs::Laws::then), unfolding(crate::specs::Waits::withdraw_text))]
fn withdrawn(l: &[u8], answer: &[u8], c: Clock) -> Text
    ensures { Says (T.withdraw_text l.now answer.now c) result }
{
    let asked = count(say(at_time(c), b"withdraw label "), wide_at(l, 1) as u64);
    ended(asked, byte_at(answer, 0))
}

fn kept_number(k: Option<(AudioError, u16)>) -> u8
    ensures { result ≡ T.kept_number k }
{
    k.map_or(0, |(error, _)| u8::from(error))
}

fn kept_label(k: Option<(AudioError, u16)>) -> u16
    ensures { result ≡ T.kept_label k }
{
    k.map_or(0, |(_, label)| label)
}

fn kept_key(k: Option<(AudioError, u16)>) -> u32
    ensures { result ≡ T.kept_key k }
{
    let number = kept_number(k) as u32;
    let label = kept_label(k) as u32;
    65536 * number + label
}

// The one that was dropped last, where it is another than before.
fn dropped(t: Text, before: Option<(AudioError, u16)>, after: Option<(AudioError, u16)>) -> Text
    ensures { Adds t (T.dropped_text before after) result }
{
    if kept_key(before) == kept_key(after) {
        return say(t, b"\n");
    }
    let label = kept_label(after) as u64;
    let named = count(say(t, b", the last dropped: label "), label);
    let number = kept_number(after);
    let numbered = count(say(named, b", "), number as u64);
    say(why(say(numbered, b": "), number), b"\n")
}

// How many left the line in the frames of a record: the box before it and after it.
pub fn tell_moved(before: &OpenBox, after: &OpenBox, c: Clock) -> Text
    ensures { Tells (T.moved_text before.now after.now c) result }
{
    let n = before.waiting_count();
    let m = after.waiting_count();
    if n <= m {
        return empty();
    }
    let gone = things(at_time(c), (n - m) as u64, b" request");
    let left = count(say(gone, b" out of the line, "), m as u64);
    let old = before.kept_refusal();
    let new = after.kept_refusal();
    dropped(say(left, b" waiting"), old, new)
}

// A request left or withdrawn.
#[tactic(auto, using(std::proofs::lemmas::Bool::Decides::nat_tests, crate::proofs::Laws::whole_lines), unfolding(crate::specs::Waits::wait_text))]
pub fn tell_waiting(l: &[u8], answer: &[u8], c: Clock) -> Text
    ensures { Tells (T.wait_text l.now answer.now c) result }
{
    match byte_at(l, 0) {
        0x74 => left(l, answer, c),
        0x75 => withdrawn(l, answer, c),
        _ => empty(),
    }
}
