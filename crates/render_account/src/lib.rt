// What a person is told of a line of a script that was answered. The answer's text has the number first, then the voice.
#![tactic(auto)]

ghost use Rattle.std.specs.Prelude.{◌++◌, option_copied};
ghost use Rattle.render_texts.specs.Texts.{Says, Tells, Adds, decimal};
ghost use Rattle.render_account.specs.Account as T;

pub mod waits;
mod words;

use hex_digits::{byte_at, long_at, wide_at};
use polyblep::PolyBlepWaveform;
use render_texts::{Clock, Text, at_time, count, empty, say, so_long, things};
use replay_box::OpenBox;
use replay_fields::{polyblep_waveform, tone_waveform};
use tone::Waveform;
use words::{ended, over, sounding, voiced};

fn counted(head: &[u8], n: u64, name: &[u8], hz: u32, answer: &[u8], c: Clock) -> Text
    ensures { Says (T.count_text head.now n name.now hz answer.now c) result }
{
    let all = things(say(at_time(c), head), n, name);
    let rate = count(say(all, b" at "), hz as u64);
    ended(say(rate, b" Hz"), byte_at(answer, 0))
}

fn opened(l: &[u8], answer: &[u8], c: Clock) -> Text
    ensures { Says (T.open_text l.now answer.now c) result }
{
    let n = byte_at(l, 1) as u64;
    counted(b"open ", n, b" voice", long_at(l, 2), answer, c)
}

fn opened_present(l: &[u8], answer: &[u8], c: Clock) -> Text
    ensures { Says (T.present_text l.now answer.now c) result }
{
    let n = byte_at(l, 1) as u64;
    counted(
        b"open a box of the present rules, ",
        n,
        b" voice",
        long_at(l, 2),
        answer,
        c,
    )
}

fn banked(l: &[u8], answer: &[u8], c: Clock) -> Text
    ensures { Says (T.bank_text l.now answer.now c) result }
{
    let n = wide_at(l, 5) as u64;
    counted(b"set a bank of ", n, b" sound", long_at(l, 1), answer, c)
}

fn played(l: &[u8], answer: &[u8], e: &OpenBox, c: Clock) -> Text
    ensures { Says (T.play_text l.now answer.now e.now c) result }
{
    let id = count(say(at_time(c), b"play "), wide_at(l, 1) as u64);
    let asked = count(say(id, b" at priority "), byte_at(l, 10) as u64);
    let number = byte_at(answer, 0);
    if number == 0 {
        return say(voiced(asked, e, byte_at(answer, 1)), b"\n");
    }
    ended(asked, number)
}

// A fade, by the call that is asked for.
fn fading(call: &[u8], l: &[u8], answer: &[u8], e: &OpenBox, c: Clock) -> Text
    ensures { Says (T.fade_text call.now l.now answer.now e.now c) result }
{
    let id = count(say(at_time(c), call), wide_at(l, 1) as u64);
    let ms = wide_at(l, 3);
    let asked = say(count(say(id, b" over "), ms as u64), b" ms");
    let number = byte_at(answer, 0);
    if number == 0 {
        let config = e.config();
        return say(over(asked, ms, config.sample_rate_hz), b"\n");
    }
    ended(asked, number)
}

fn faded(l: &[u8], answer: &[u8], e: &OpenBox, c: Clock) -> Text
    ensures { Says (T.fade_text T.fade_words l.now answer.now e.now c) result }
{
    fading(b"fade to ", l, answer, e, c)
}

fn faded_on(l: &[u8], answer: &[u8], e: &OpenBox, c: Clock) -> Text
    ensures { Says (T.fade_text T.fade_on_words l.now answer.now e.now c) result }
{
    fading(b"fade that sounds on to ", l, answer, e, c)
}

fn tone_name(t: Text, waveform: Waveform) -> Text
    ensures { Adds t (T.tone_name waveform) result }
{
    match waveform {
        Waveform::Square => say(t, b"square"),
        Waveform::Sine => say(t, b"sine"),
        Waveform::Triangle => say(t, b"triangle"),
    }
}

#[tactic(auto, using(render_texts::proofs::Laws::then), unfolding(crate::specs::Account::tone_text))]
fn toned(l: &[u8], e: &OpenBox, c: Clock) -> Text
    ensures { Says (T.tone_text l.now e.now c) result }
{
    let name = tone_name(at_time(c), tone_waveform(byte_at(l, 7)));
    sounding(say(name, b" tone of "), l, e)
}

fn polyblep_name(t: Text, waveform: PolyBlepWaveform) -> Text
    ensures { Adds t (T.polyblep_name waveform) result }
{
    match waveform {
        PolyBlepWaveform::Sine => say(t, b"sine"),
        PolyBlepWaveform::Sawtooth => say(t, b"sawtooth"),
        PolyBlepWaveform::Square => say(t, b"square"),
        PolyBlepWaveform::Triangle => say(t, b"triangle"),
    }
}

fn polybleped(l: &[u8], e: &OpenBox, c: Clock) -> Text
    ensures { Says (T.polyblep_text l.now e.now c) result }
{
    let waveform = polyblep_waveform(byte_at(l, 7));
    let name = polyblep_name(say(at_time(c), b"PolyBLEP "), waveform);
    sounding(say(name, b" of "), l, e)
}

#[tactic(auto, using(render_texts::proofs::Laws::then), unfolding(crate::specs::Account::stop_text))]
fn stopped(c: Clock) -> Text
    ensures { Says (T.stop_text c) result }
{
    say(at_time(c), b"stop\n")
}

// A question with a number in it.
fn asked(head: &[u8], n: u64, answer: &[u8], c: Clock) -> Text
    ensures { Says (T.ask_text (head.now ++ decimal n) answer.now c) result }
{
    let number = byte_at(answer, 0);
    if number == 0 {
        return empty();
    }
    ended(count(say(at_time(c), head), n), number)
}

fn searched(l: &[u8], answer: &[u8], c: Clock) -> Text
    ensures { Says (T.ask_text (T.search_question l.now) answer.now c) result }
{
    asked(b"search for ", wide_at(l, 1) as u64, answer, c)
}

#[tactic(auto, using(render_texts::proofs::Laws::then), unfolding(crate::specs::Account::ask_text))]
fn looked_up(answer: &[u8], c: Clock) -> Text
    ensures { Says (T.ask_text T.payload_question answer.now c) result }
{
    let number = byte_at(answer, 0);
    if number == 0 {
        return empty();
    }
    ended(say(at_time(c), b"look a payload up"), number)
}

fn allocated(l: &[u8], answer: &[u8], c: Clock) -> Text
    ensures { Says (T.ask_text (T.voice_question l.now) answer.now c) result }
{
    asked(
        b"find a voice at priority ",
        byte_at(l, 1) as u64,
        answer,
        c,
    )
}

// A record of the box that is open, as it was before it. Frames, and calls that only ask and are answered, have no line in the account.
#[tactic(auto, using(std::proofs::lemmas::Bool::Decides::nat_tests, crate::proofs::Laws::whole_lines), unfolding(crate::specs::Account::call_text))]
fn tell_call(l: &[u8], answer: &[u8], e: &OpenBox, c: Clock) -> Text
    ensures { Tells (T.call_text l.now answer.now e.now c) result }
{
    match byte_at(l, 0) {
        0x11 => banked(l, answer, c),
        0x13 => played(l, answer, e, c),
        0x14 => faded(l, answer, e, c),
        0x15 => toned(l, e, c),
        0x16 => polybleped(l, e, c),
        0x19 => stopped(c),
        0x1a => searched(l, answer, c),
        0x1b => looked_up(answer, c),
        0x1c => allocated(l, answer, c),
        0x73 => faded_on(l, answer, e, c),
        _ => empty(),
    }
}

// A line, and the box that was open before it.
#[tactic(auto, using(std::proofs::lemmas::Bool::Decides::nat_tests, crate::proofs::Laws::whole_lines), unfolding(crate::specs::Account::line_text))]
pub fn tell(l: &[u8], answer: &[u8], held: Option<&OpenBox>, c: Clock) -> Text
    ensures { Tells (T.line_text l.now answer.now (option_copied held.entry) c) result }
{
    match byte_at(l, 0) {
        0x10 => opened(l, answer, c),
        0x70 => opened_present(l, answer, c),
        _ => match held {
            Some(e) => tell_call(l, answer, e, c),
            None => empty(),
        },
    }
}

// The account's last line.
pub fn total(c: Clock) -> Text
    ensures { Tells (T.total_text c) result }
{
    let rate = count(say(so_long(c), b" of sound at "), c.rate as u64);
    let bytes = count(say(rate, b" Hz, "), 4 * (c.frames as u64));
    say(bytes, b" bytes of samples\n")
}
