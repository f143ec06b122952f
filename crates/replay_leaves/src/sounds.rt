// A source alone, and an oscillator from its bits: how it starts, its requests, and what is printed of them.
ghost use Rattle.std.specs.Prelude.{◌≡◌, ◌+◌, ◌*◌, ◌≤◌, ◌<◌, min};
ghost use Rattle.laws.specs.Made.{Made};
ghost use Rattle.polyblep.specs.Restores.{ValidRestoredVoice};
ghost use Rattle.voice.specs.Sources.{ValidSource, ValidStep};
ghost use Rattle.hex_digits.specs.Hex.{wide_at, Laid, Wrote};
ghost use Rattle.replay_leaves.specs.Replies.{waveforms_of, source_reply, restored_reply};
ghost use Rattle.replay_leaves.specs.Runs.{stepped, texts};
ghost use Rattle.replay_leaves.specs.Sounds.{source_at, passed_over, request, given_number, given_text, source_run, source_text, requests_line, restored_at, restored_text};

use crate::Reply;
use fixed::Step;
use hex_digits::{byte_at, end_line, long_at, put, put_line, three_at, wide_at};
use polyblep::PolyBlepVoice;
use replay_fields::{polyblep_waveform, put_source, tone_waveform};
use voice::VoiceSource;

// A source after some requests, with what the last one gave, and the place after their texts.
#[derive(Clone, Copy, Debug, PartialEq)]
struct Requested {
    last: Step<VoiceSource, Option<i8>>,
    next: usize,
}

// The kind is a byte of the line, and an unknown one is read too: it has no waveform, and starts as FM. So no enum.
#[tactic(auto, using(std::proofs::lemmas::Bool::Decides::nat_tests))]
pub(crate) fn waveforms(kind: u8) -> u8
    ensures { result ≡ waveforms_of kind }
{
    match kind {
        1 => 3,
        2 => 4,
        3 => 1,
        _ => 0,
    }
}

#[tactic(auto, using(std::proofs::lemmas::Bool::Decides::nat_tests), unfolding(crate::specs::Replies::source_reply))]
pub(crate) fn source_reply(l: &[u8]) -> Reply
    ensures { result ≡ source_reply l.now }
{
    let count = waveforms(byte_at(l, 1));
    if byte_at(l, 8) >= count {
        return Reply::Bad;
    }
    if wide_at(l, 16) <= 16000 {
        Reply::Source
    } else {
        Reply::Bad
    }
}

#[tactic(auto, using(std::proofs::lemmas::Bool::Decides::nat_tests), unfolding(crate::specs::Sounds::source_at))]
pub(crate) fn source_at(l: &[u8]) -> VoiceSource
    ensures { Made ValidSource (source_at l.now) result }
{
    let kind = byte_at(l, 1);
    let hz = long_at(l, 2);
    let parameter = wide_at(l, 6);
    let waveform = byte_at(l, 8);
    let rate = long_at(l, 9);
    match kind {
        1 => VoiceSource::start_tone(hz, parameter, tone_waveform(waveform), rate),
        2 => VoiceSource::start_polyblep(hz, parameter, polyblep_waveform(waveform), rate),
        _ => VoiceSource::start_fm(hz, parameter, rate),
    }
}

// A record that prints more is bad; where it is not, this is the field.
pub(crate) fn printed_at(l: &[u8], k: usize) -> u16
    ensures { (result ≡ min (wide_at l.now k) 16000) × (result ≤ 16000) }
{
    wide_at(l, k).min(16000)
}

pub(crate) fn given_number(g: Option<i8>) -> u64
    ensures { result ≡ given_number g }
{
    g.map_or(256, |s| u64::from(s.cast_unsigned()))
}

// Requests that are not printed.
fn skipped(first: VoiceSource, count: u32) -> VoiceSource
    requires { ValidSource first }
    ensures { Made ValidSource (stepped passed_over count first) result }
{
    let mut source = first;
    for _ in 0..count {
        source = source.next_raw_sample().voice;
    }
    source
}

// Requests, each with what it gave.
fn requests(
    out: &mut [u8; 262144],
    at: usize,
    first: Step<VoiceSource, Option<i8>>,
    count: u16,
) -> Requested
    requires { ValidStep first }
    ensures laid { Laid out.old at (texts request given_text count first) out.new result.next }
    ensures next_bound { result.next ≤ at + 4 * count }
    ensures made { Made ValidStep (stepped request count first) result.last }
{
    let mut last = first;
    let mut next = at;
    for _ in 0..count {
        last = last.voice.next_raw_sample();
        next = put(out, next, given_number(last.given), 4);
    }
    Requested { last, next }
}

fn run_source(l: &[u8], out: &mut [u8; 262144]) -> usize
    ensures { Wrote out.old 0 (source_run l.now) out.new result }
{
    let n = put_line(out, 0, 2);
    let source = skipped(source_at(l), three_at(l, 13));
    let first = Step {
        voice: source,
        given: None,
    };
    let to = requests(out, n, first, printed_at(l, 16));
    let last = to.last.voice;
    let state = put_source(out, to.next, last);
    let carrier = last.carrier_hz(long_at(l, 9));
    let end = put(out, state, carrier.unwrap_or(0) as u64, 8);
    end_line(out, end)
}

#[tactic(auto, using(std::proofs::lemmas::Bool::Decides::nat_tests), unfolding(crate::specs::Sounds::source_text))]
pub(crate) fn source(l: &[u8], out: &mut [u8; 262144]) -> usize
    ensures { Wrote out.old 0 (source_text l.now) out.new result }
{
    if long_at(l, 9) <= 65537 {
        run_source(l, out)
    } else {
        put_line(out, 2, 2)
    }
}

#[tactic(auto, using(std::proofs::lemmas::Bool::Decides::nat_tests), unfolding(crate::specs::Replies::restored_reply))]
pub(crate) fn restored_reply(l: &[u8]) -> Reply
    ensures { result ≡ restored_reply l.now }
{
    if byte_at(l, 9) >= 4 {
        return Reply::Bad;
    }
    if wide_at(l, 10) <= 16000 {
        Reply::Restored
    } else {
        Reply::Bad
    }
}

// A voice that sounds without end, with a new voice's Hz and rate.
fn restored_at(l: &[u8]) -> Option<PolyBlepVoice>
    ensures { Made ValidRestoredVoice (restored_at l.now) result }
{
    let waveform = polyblep_waveform(byte_at(l, 9));
    PolyBlepVoice::restored(
        long_at(l, 1),
        long_at(l, 5),
        waveform,
        440,
        48_000,
        0xffff_ffff,
        true,
    )
}

fn run_requests(source: VoiceSource, count: u16, out: &mut [u8; 262144]) -> usize
    requires { ValidSource source × (count ≤ 16000) }
    ensures { Wrote out.old 0 (requests_line count source) out.new result }
{
    let n = put_line(out, 0, 2);
    let first = Step {
        voice: source,
        given: None,
    };
    let to = requests(out, n, first, count);
    let end = put_source(out, to.next, to.last.voice);
    end_line(out, end)
}

#[tactic(auto, unfolding(crate::specs::Sounds::restored_text))]
pub(crate) fn restored(l: &[u8], out: &mut [u8; 262144]) -> usize
    ensures { Wrote out.old 0 (restored_text l.now) out.new result }
{
    let count = printed_at(l, 10);
    match restored_at(l) {
        Some(v) => run_requests(VoiceSource::PolyBlep(v), count, out),
        None => put_line(out, 1, 2),
    }
}
