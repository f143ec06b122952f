// A run over a script's lines: the box that is open, the bytes lent to it, and what is answered to each line.
#![tactic(auto)]

ghost use Rattle.std.specs.Prelude.{◌≡◌, ◌-◌, ◌/◌, ◌≤◌, false, length, option_copied};
ghost use Rattle.hex_digits.specs.Hex.{byte_at, Wrote};
ghost use Rattle.replay_fills.specs.Fills.{buffer_of};
ghost use Rattle.replay_replies.specs.Texts.{bad_text};
ghost use Rattle.replay_session.specs.Runs.{lent_in};
ghost use Rattle.replay_session.specs.Sessions.{bytes_at, Laid, Does, Answers, started, policy_of, config_at, opens, open_answer, lend_answer, goes_on, call_answer, fill_answer, fill_allowed, asks_box, asks_of, answer_for, session_answer};
ghost use Rattle.replay_waits.specs.Waits.{asked_of};

use config::AudioConfig;
use hex_digits::{all_digits, byte_at, long_at, put_line, wide_at};
use mixer::VoiceStealingPolicy;
use replay_box::{OpenBox, Rules};
use replay_calls::Reply;
use replay_fields::mode_of;
use replay_fills::Buffer;
use replay_leaves::Answered;
use replay_replies::put_reply;
use replay_waits::Asked;
use std::marker::Model;

// What a line asks: that a box is opened or bytes are lent, a call or a buffer of the box that is open, or what needs no box.
#[derive(Clone, Copy, Debug, PartialEq, Eq)]
enum Asks {
    Open(Rules),
    Lend,
    Call(Asked),
    Fill(Buffer),
    Alone,
}

// The first cells are the bytes lent.
#[derive(Clone, Copy)]
pub struct Session {
    cells: [u8; 4096],
    count: usize,
    held: Option<OpenBox>,
}

impl Model for Session {
    ghost use Rattle.std.specs.Prelude.{◌≤◌};
    ghost use Rattle.replay_session.specs.Runs.{Run};

    ghost Value = { Run };

    ghost view = { λ s. record { cells = s.cells; count = s.count; held = s.held } };

    ghost invariant = { λ s. s.count ≤ 4096 };

    ghost inverse = { λ r. record { cells = r.cells; count = r.count; held = r.held } };
}

fn bad(out: &mut [u8; 262144]) -> Answered
    ensures { Laid bad_text false out.old out.new result }
{
    let len = put_line(out, 0xffff, 4);
    Answered { len, more: false }
}

fn policy_of(n: u8) -> VoiceStealingPolicy
    ensures { result ≡ policy_of n }
{
    match n {
        0 => VoiceStealingPolicy::LowestPriorityOldest,
        _ => VoiceStealingPolicy::FreeChannelOnly,
    }
}

fn config_at(l: &[u8]) -> AudioConfig
    ensures { result ≡ config_at l.now }
{
    AudioConfig {
        sample_rate_hz: long_at(l, 2),
        pwm_period: wide_at(l, 6),
        duty_mode: mode_of(byte_at(l, 8)),
        master_gain_q8: byte_at(l, 9),
    }
}

// The length of an open record, its duty mode and its policy.
fn opens(l: &[u8]) -> bool
    ensures { result ≡ opens l.now }
{
    if l.len() != 22 {
        return false;
    }
    if byte_at(l, 8) > 2 {
        return false;
    }
    byte_at(l, 10) <= 1
}

// The bytes of the line from byte 1 on, as many as there are cells.
#[tactic(auto, unfolding(crate::specs::Sessions::bytes_at))]
fn copy_bytes(l: &[u8], lent: &mut [u8])
    requires { length lent.old ≤ 4096 }
    ensures { lent.new ≡ bytes_at l.now 1 (length lent.old) }
{
    for i in 0..lent.len() {
        lent[i] = byte_at(l, i + 1);
    }
}

// How many bytes follow the code.
fn byte_count(digits: usize) -> usize
    ensures { result ≡ digits / 2 - 1 }
{
    (digits / 2).saturating_sub(1)
}

fn goes_on(r: Reply) -> bool
    ensures { result ≡ goes_on r }
{
    !matches!(r, Reply::Bad)
}

pub fn fill_allowed(l: &[u8]) -> bool
    ensures { result ≡ fill_allowed l.now }
{
    l.len() == 6 && wide_at(l, 1) <= 2048
}

// A call of the open box, a buffer of it, or neither.
fn asks_box(code: u8) -> Asks
    ensures { result ≡ asks_box (asked_of code) (buffer_of code) }
{
    if let Some(asked) = Asked::of(code) {
        return Asks::Call(asked);
    }
    match Buffer::of(code) {
        Some(buffer) => Asks::Fill(buffer),
        None => Asks::Alone,
    }
}

#[tactic(auto, unfolding(crate::specs::Sessions::asks_of))]
fn asks_of(code: u8) -> Asks
    ensures { result ≡ asks_of code }
{
    match code {
        0x10 => Asks::Open(Rules::First),
        0x70 => Asks::Open(Rules::Present),
        0x12 => Asks::Lend,
        _ => asks_box(code),
    }
}

impl Session {
    pub fn new() -> Session
        ensures { result ≡ started }
    {
        Session {
            cells: [0; 4096],
            count: 0,
            held: None,
        }
    }

    // A run of its own that is the same.
    pub fn copied(&self) -> Session
        ensures { result ≡ self.now }
    {
        let held = match &self.held {
            None => None,
            Some(b) => Some(b.copied()),
        };
        Session {
            cells: self.cells,
            count: self.count,
            held,
        }
    }

    // The bytes lent.
    pub fn lent(&self) -> &[u8]
        ensures { result.now ≡ lent_in self.now }
    {
        &self.cells[..self.count]
    }

    // The box that is open.
    pub fn held(&self) -> Option<&OpenBox>
        ensures { option_copied result ≡ self.now.held }
    {
        self.held.as_ref()
    }

    #[tactic(auto, unfolding(crate::specs::Sessions::open_answer))]
    fn open(&mut self, rules: Rules, l: &[u8], out: &mut [u8; 262144]) -> Answered
        ensures { Does (open_answer rules self.old l.now) out.old out.new self.new result }
    {
        if !opens(l) {
            return bad(out);
        }
        let n = usize::from(byte_at(l, 1));
        match OpenBox::open(rules, n, config_at(l), policy_of(byte_at(l, 10))) {
            Ok(b) => {
                self.held = Some(b);
                let len = put_line(out, 0, 2);
                Answered { len, more: true }
            }
            Err(e) => {
                let len = put_line(out, u64::from(u8::from(e)), 2);
                Answered { len, more: true }
            }
        }
    }

    #[tactic(auto, unfolding(crate::specs::Sessions::lend_answer))]
    fn lend(&mut self, l: &[u8], out: &mut [u8; 262144]) -> Answered
        requires { length l.now ≤ 8194 }
        ensures { Does (lend_answer self.old l.now) out.old out.new self.new result }
    {
        if l.len() % 2 != 0 {
            return bad(out);
        }
        let count = byte_count(l.len());
        copy_bytes(l, &mut self.cells[..count]);
        self.count = count;
        Answered { len: 0, more: true }
    }

    // A record of the box that is open.
    #[tactic(auto, unfolding(crate::specs::Sessions::call_answer))]
    fn call(&mut self, asked: Asked, l: &[u8], out: &mut [u8; 262144]) -> Answered
        ensures { Does (call_answer asked self.old l.now) out.old out.new self.new result }
    {
        let bytes = &self.cells[..self.count];
        let Some(b) = &mut self.held else {
            return bad(out);
        };
        let reply = asked.call(l, bytes, b);
        let len = put_reply(reply, l, bytes, b, out);
        Answered {
            len,
            more: goes_on(reply),
        }
    }

    // A record that fills a buffer.
    #[tactic(auto, unfolding(crate::specs::Sessions::fill_answer))]
    fn fill(&mut self, buffer: Buffer, l: &[u8], out: &mut [u8; 262144]) -> Answered
        ensures { Does (fill_answer buffer self.old l.now) out.old out.new self.new result }
    {
        if !fill_allowed(l) {
            return bad(out);
        }
        let bytes = &self.cells[..self.count];
        let Some(b) = &mut self.held else {
            return bad(out);
        };
        let len = buffer.fill(bytes, b, usize::from(wide_at(l, 1)), out);
        Answered { len, more: true }
    }

    // A good line of at most 8,194 digits.
    fn answer_line(&mut self, l: &[u8], out: &mut [u8; 262144]) -> Answered
        requires { length l.now ≤ 8194 }
        ensures { Answers (answer_for (asks_of (byte_at l.now 0)) self.old l.now) out.old out.new self.new result }
    {
        match asks_of(byte_at(l, 0)) {
            Asks::Open(rules) => self.open(rules, l, out),
            Asks::Lend => self.lend(l, out),
            Asks::Call(asked) => self.call(asked, l, out),
            Asks::Fill(buffer) => self.fill(buffer, l, out),
            Asks::Alone => replay_leaves::answer(l, out),
        }
    }

    // What a line makes of the run, and its answer at the front of the buffer, which is as long as the longest answer.
    pub fn answer(&mut self, line: &[u8], out: &mut [u8; 262144]) -> Answered
        ensures { Answers (session_answer self.old line.now) out.old out.new self.new result }
    {
        if line.len() > 8194 {
            return bad(out);
        }
        if all_digits(line) {
            self.answer_line(line, out)
        } else {
            bad(out)
        }
    }
}
