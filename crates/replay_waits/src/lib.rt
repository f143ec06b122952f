// The records of requests that wait, and every record of an open box.
#![tactic(auto)]

ghost use Rattle.std.specs.Prelude.{◌≡◌};
ghost use Rattle.replay_box.specs.declared.OpenBox.TheVariants as B;
ghost use Rattle.replay_waits.specs.Waits.{wait_of, allowed_wait, leave_call, withdraw_call, next_reply, kept_reply, wait_for, waited, asked_of, called_any};

use error::AudioError;
use hex_digits::{byte_at, wide_at};
use replay_box::OpenBox;
use replay_calls::{Record, Reply, outcome_reply};
use replay_fields::spec_at;
use sounder::Sounder;
use waiting::Waiting;

// The records 74 to 78.
#[derive(Clone, Copy, Debug, PartialEq, Eq)]
pub enum Wait {
    Leave,
    Withdraw,
    Labels,
    Next,
    Kept,
}

// A record that an open box is asked.
#[derive(Clone, Copy, Debug, PartialEq, Eq)]
pub enum Asked {
    Wait(Wait),
    Other(Record),
}

#[tactic(auto, unfolding(crate::specs::Waits::leave_call))]
fn leave_call(l: &[u8], s: &mut Sounder) -> Reply
    ensures { record { held = B.Sounder s.new; gave = result } ≡ leave_call l.now s.old }
{
    let adsr = spec_at(l, 6);
    outcome_reply(s.leave(wide_at(l, 1), wide_at(l, 4), adsr, byte_at(l, 13)))
}

#[tactic(auto, unfolding(crate::specs::Waits::withdraw_call))]
fn withdraw_call(l: &[u8], s: &mut Sounder) -> Reply
    ensures { record { held = B.Sounder s.new; gave = result } ≡ withdraw_call l.now s.old }
{
    outcome_reply(s.withdraw(wide_at(l, 1)))
}

fn next_reply(n: Option<Waiting>) -> Reply
    ensures { result ≡ next_reply n }
{
    match n {
        None => Reply::Number(0),
        Some(w) => Reply::Labelled(1, u64::from(w.label)),
    }
}

fn kept_reply(k: Option<(AudioError, u16)>) -> Reply
    ensures { result ≡ kept_reply k }
{
    match k {
        None => Reply::Number(0),
        Some((error, label)) => Reply::Labelled(u64::from(u8::from(error)), u64::from(label)),
    }
}

impl Wait {
    #[tactic(auto, unfolding(crate::specs::Waits::wait_of))]
    fn of(code: u8) -> Option<Wait>
        ensures { result ≡ wait_of code }
    {
        match code {
            0x74 => Some(Wait::Leave),
            0x75 => Some(Wait::Withdraw),
            0x76 => Some(Wait::Labels),
            0x77 => Some(Wait::Next),
            0x78 => Some(Wait::Kept),
            _ => None,
        }
    }

    #[tactic(auto, unfolding(crate::specs::Waits::allowed_wait))]
    fn is_allowed(self, l: &[u8]) -> bool
        ensures { result ≡ allowed_wait self l.now }
    {
        let n = l.len();
        match self {
            Wait::Leave => n == 28 && byte_at(l, 3) == 0,
            Wait::Withdraw => n == 6,
            Wait::Labels | Wait::Next | Wait::Kept => n == 2,
        }
    }

    #[tactic(auto, unfolding(crate::specs::Waits::wait_for))]
    fn call_for(self, l: &[u8], s: &mut Sounder) -> Reply
        ensures { record { held = B.Sounder s.new; gave = result } ≡ wait_for self l.now s.old }
    {
        match self {
            Wait::Leave => leave_call(l, s),
            Wait::Withdraw => withdraw_call(l, s),
            Wait::Labels => Reply::Waiting,
            Wait::Next => next_reply(s.next_in_line()),
            Wait::Kept => kept_reply(s.kept_refusal()),
        }
    }

    #[tactic(auto, unfolding(crate::specs::Waits::waited))]
    fn call(self, l: &[u8], e: &mut OpenBox) -> Reply
        ensures { record { held = e.new; gave = result } ≡ waited self l.now e.old }
    {
        let OpenBox::Sounder(s) = e else {
            return Reply::Bad;
        };
        if self.is_allowed(l) {
            self.call_for(l, s)
        } else {
            Reply::Bad
        }
    }
}

impl Asked {
    #[tactic(auto, unfolding(crate::specs::Waits::asked_of))]
    pub fn of(code: u8) -> Option<Asked>
        ensures { result ≡ asked_of code }
    {
        if let Some(wait) = Wait::of(code) {
            return Some(Asked::Wait(wait));
        }
        let record = Record::of(code)?;
        Some(Asked::Other(record))
    }

    // A line of this record, over the bytes lent.
    #[tactic(auto, unfolding(crate::specs::Waits::called_any))]
    pub fn call(self, l: &[u8], bytes: &[u8], e: &mut OpenBox) -> Reply
        ensures { record { held = e.new; gave = result } ≡ called_any self l.now bytes.now e.old }
    {
        match self {
            Asked::Wait(wait) => wait.call(l, e),
            Asked::Other(record) => record.call(l, bytes, e),
        }
    }
}
