// Pieces of the account's lines.
ghost use Rattle.render_texts.specs.Texts.{Adds};
ghost use Rattle.replay_box.specs.Boxes.{is_present};
ghost use Rattle.render_account.specs.Account as T;

use hex_digits::{long_at, wide_at};
use render_texts::{Text, count, say, tenths};
use replay_box::OpenBox;

// Numbers that document 02's requests add, in words. They stay numbers, as an answer has them: one without words is told too, and a TryFrom
// to AudioError would be this table once more.
fn why_added(t: Text, number: u8) -> Text
    ensures { Adds t (T.added_text number) result }
{
    match number {
        12 => say(t, b"a rate below 20 Hz"),
        13 => say(t, b"the entries do not make a bank"),
        14 => say(t, b"the buffer is too short"),
        15 => say(t, b"its offset is past the end of the bank"),
        16 => say(t, b"it runs past the end of the bank"),
        17 => say(t, b"32 requests are waiting"),
        18 => say(t, b"its label is waiting already"),
        19 => say(t, b"no request is waiting under this label"),
        22 => say(t, b"the site is past what is counted"),
        _ => say(t, b"a number without words"),
    }
}

// Why a call is turned down: document 01's numbers in words, and the others as above.
pub(crate) fn why(t: Text, number: u8) -> Text
    ensures { Adds t (T.why_text number) result }
{
    match number {
        1 => say(t, b"more than 16 voices"),
        2 => say(t, b"a rate above 65,537 Hz"),
        3 => say(t, b"a period below 2"),
        4 => say(t, b"the bank ends before what is asked of it"),
        5 => say(t, b"there is no voice for it"),
        6 => say(t, b"no bank is set"),
        7 => say(
            t,
            b"the bytes lent are not as many as the bank that was set",
        ),
        8 => say(t, b"no entry has this id"),
        9 => say(t, b"an entry is of no known kind"),
        10 => say(t, b"the entry is of a kind that is not carried"),
        11 => say(t, b"a sum outside the limiter's range"),
        _ => why_added(t, number),
    }
}

// The end of a line, by the number that the answer begins with: nothing more where a call was accepted.
pub(crate) fn ended(t: Text, number: u8) -> Text
    ensures { Adds t (T.end_text number) result }
{
    if number == 0 {
        return say(t, b"\n");
    }
    let counted = count(say(t, b": refused, "), number as u64);
    say(why(say(counted, b": "), number), b"\n")
}

// From whom a voice was taken: by the present rules the oldest of its priority.
fn taken(t: Text, e: &OpenBox, priority: u8) -> Text
    ensures { Adds t (T.from_text (is_present e.now) priority) result }
{
    if e.is_present() {
        return count(
            say(t, b", taken from the oldest at priority "),
            priority as u64,
        );
    }
    count(say(t, b", taken from priority "), priority as u64)
}

// The voice that a request got; where it was audible, whose it was.
pub(crate) fn voiced(t: Text, e: &OpenBox, voice: u8) -> Text
    ensures { Adds t (T.voice_text e.now voice) result }
{
    let got = count(say(t, b": voice "), voice as u64);
    match e.voice(voice as usize) {
        None => got,
        Some(v) => {
            if v.is_audible() {
                return taken(got, e, v.priority);
            }
            got
        }
    }
}

// When a fade that begins now will be over.
pub(crate) fn over(t: Text, ms: u16, rate: u32) -> Text
    ensures { Adds t (T.over_text ms rate) result }
{
    if rate == 0 {
        return say(t, b": over in 1 frame");
    }
    let hz = rate as u64;
    let step = config::crossfade_step_q8(ms, rate) as u64;
    let frames = (255 + (step - 1)) / step;
    let time = (10_000 * frames + (hz - 1)) / hz;
    say(tenths(say(t, b": over in "), time), b" ms")
}

fn lasting(t: Text, ms: u16) -> Text
    ensures { Adds t (T.lasting_text ms) result }
{
    if ms == 0 {
        return say(t, b" without end");
    }
    say(count(say(t, b" for "), ms as u64), b" ms")
}

// A frequency and how long; a box of no voices has none to sound it.
pub(crate) fn sounding(t: Text, l: &[u8], e: &OpenBox) -> Text
    ensures { Adds t (T.sounding_text l.now e.now) result }
{
    let hz = say(count(t, long_at(l, 1) as u64), b" Hz");
    let ms = lasting(hz, wide_at(l, 5));
    if e.voice_count() == 0 {
        return say(ms, b": there are no voices\n");
    }
    say(ms, b"\n")
}
