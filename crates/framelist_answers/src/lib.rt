// A list of lines, each a tone or a number of frames: one box of the present rules, and what is answered to each line.
#![tactic(auto)]

ghost use Rattle.std.specs.Prelude.{◌≡◌};
ghost use Rattle.laws.specs.Made.{Made};
ghost use Rattle.entering.specs.Lined.{Valid};
ghost use Rattle.framelist_answers.specs.Lines.{started, bad_answer, is_tone, tone_answer, is_frames, frames_answer, line_answer, Told, Answers};

use config::AudioConfig;
use hex_digits::{all_digits, byte_at, end_line, long_at, put, put_line, wide_at};
use mixer::VoiceStealingPolicy;
use output::DutyMode;
use replay_fields::tone_waveform;
use sounder::Sounder;

// How many bytes the answer has, and whether the run goes on: a line that ends it has an answer too.
#[derive(Clone, Copy)]
pub struct Answered {
    pub len: usize,
    pub more: bool,
}

// The box before the first line.
pub fn start() -> Sounder
    ensures { Made Valid started result }
{
    let config = AudioConfig {
        sample_rate_hz: 16000,
        pwm_period: 1000,
        duty_mode: DutyMode::Linear,
        master_gain_q8: 255,
    };
    let (s, _) = Sounder::open(2, config, VoiceStealingPolicy::LowestPriorityOldest);
    s
}

fn bad(s: &mut Sounder, out: &mut [u8; 262144]) -> Answered
    ensures { Told (bad_answer s.old) out.old out.new result s.new }
{
    let len = put_line(out, 0xffff, 4);
    Answered { len, more: false }
}

fn is_tone(l: &[u8]) -> bool
    ensures { result ≡ is_tone l.now }
{
    l.len() == 16 && byte_at(l, 0) == 0x01 && byte_at(l, 7) <= 2
}

fn is_frames(l: &[u8]) -> bool
    ensures { result ≡ is_frames l.now }
{
    l.len() == 4 && byte_at(l, 0) == 0x02
}

fn tone_answer(l: &[u8], s: &mut Sounder, out: &mut [u8; 262144]) -> Answered
    ensures { Told (tone_answer s.old l.now) out.old out.new result s.new }
{
    let waveform = tone_waveform(byte_at(l, 7));
    s.play_tone(long_at(l, 1), wide_at(l, 5), waveform);
    Answered { len: 0, more: true }
}

// A frame's duty on a line of its own, so often; no bank is lent.
fn frames_answer(count: u8, s: &mut Sounder, out: &mut [u8; 262144]) -> Answered
    ensures { Told (frames_answer count s.old) out.old out.new result s.new }
{
    let mut at = 0;
    for _ in 0..count {
        let duty = s.tick(&[]);
        let digits = put(out, at, u64::from(duty), 4);
        at = end_line(out, digits);
    }
    Answered {
        len: at,
        more: true,
    }
}

// Lent as a slice, a buffer tells the proof its length, which its type fixes.
fn whole(cells: &[u8]) {}

// What a line makes of the run, and its answer at the front of the buffer, which has more room than any answer needs.
pub fn answer(line: &[u8], s: &mut Sounder, out: &mut [u8; 262144]) -> Answered
    ensures { Answers (line_answer s.old line.now) out.old out.new result s.new }
{
    whole(&*out);
    if !all_digits(line) {
        return bad(s, out);
    }
    if is_tone(line) {
        return tone_answer(line, s, out);
    }
    if is_frames(line) {
        return frames_answer(byte_at(line, 1), s, out);
    }
    bad(s, out)
}
