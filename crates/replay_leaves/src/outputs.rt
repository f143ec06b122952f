// The records of one number each that may be refused, and the conversions.
ghost use Rattle.std.specs.Prelude.{◌≡◌};
ghost use Rattle.error.specs.Told.{told};
ghost use Rattle.replay_leaves.specs.Replies.{limiter_reply, duty_reply, fade_reply, conversions_reply, conversion32_reply, length_answer, length_reply, carrying_reply};

use crate::Reply;
use error::AudioError;
use hex_digits::{byte_at, long_at, wide_at};
use lengths::Length;
use output::Period;

#[tactic(auto, unfolding(crate::specs::Replies::limiter_reply))]
pub(crate) fn limiter(l: &[u8]) -> Reply
    ensures { result ≡ limiter_reply l.now }
{
    match output::limit_bus(long_at(l, 1).cast_signed()) {
        Ok(s) => Reply::Word {
            value: fixed::as_u8(s) as u64,
            digits: 4,
        },
        Err(e) => Reply::Word {
            value: u64::from(u8::from(e)) * 256,
            digits: 4,
        },
    }
}

#[tactic(auto, unfolding(crate::specs::Replies::duty_reply))]
pub(crate) fn duty(l: &[u8]) -> Reply
    ensures { result ≡ duty_reply l.now }
{
    let sample = fixed::as_i8(byte_at(l, 1));
    match Period::new(wide_at(l, 2)) {
        Ok(p) => Reply::Word {
            value: output::pcm_to_duty(sample, p) as u64,
            digits: 6,
        },
        Err(e) => Reply::Word {
            value: u64::from(u8::from(e)) * 65536,
            digits: 6,
        },
    }
}

#[tactic(auto, unfolding(crate::specs::Replies::fade_reply))]
pub(crate) fn fade_step(l: &[u8]) -> Reply
    ensures { result ≡ fade_reply l.now }
{
    Reply::Word {
        value: config::crossfade_step_q8(wide_at(l, 1), long_at(l, 3)) as u64,
        digits: 4,
    }
}

#[tactic(auto, unfolding(crate::specs::Replies::conversions_reply))]
pub(crate) fn conversions(l: &[u8]) -> Reply
    ensures { result ≡ conversions_reply l.now }
{
    let sample = fixed::as_i8(byte_at(l, 1));
    let wide = output::pcm_to_i16(sample).cast_unsigned();
    let d8 = output::pcm_to_dac_u8(sample);
    let d12 = output::pcm_to_dac_u12(sample);
    let d16 = output::pcm_to_dac_u16(sample);
    Reply::Word {
        value: (((wide as u64) * 256 + (d8 as u64)) * 65536 + (d12 as u64)) * 65536 + (d16 as u64),
        digits: 14,
    }
}

#[tactic(auto, unfolding(crate::specs::Replies::conversion32_reply))]
pub(crate) fn conversion_to_i32(l: &[u8]) -> Reply
    ensures { result ≡ conversion32_reply l.now }
{
    let value = output::pcm_to_i32(fixed::as_i8(byte_at(l, 1))).cast_unsigned();
    Reply::Word {
        value: value as u64,
        digits: 8,
    }
}

// Samples and remainder, or the refusal's number, in 14 digits.
fn length_word(read: Result<Length, AudioError>) -> Reply
    ensures { result ≡ length_answer (told read) }
{
    match read {
        Ok(n) => Reply::Word {
            value: (n.samples as u64) * 65536 + (n.remainder as u64),
            digits: 14,
        },
        Err(e) => Reply::Word {
            value: u64::from(u8::from(e)) * 281474976710656,
            digits: 14,
        },
    }
}

#[tactic(auto, unfolding(crate::specs::Replies::length_reply))]
pub(crate) fn length(l: &[u8]) -> Reply
    ensures { result ≡ length_reply l.now }
{
    length_word(lengths::length_in_samples(wide_at(l, 1), long_at(l, 3)))
}

#[tactic(auto, unfolding(crate::specs::Replies::carrying_reply))]
pub(crate) fn carrying(l: &[u8]) -> Reply
    ensures { result ≡ carrying_reply l.now }
{
    length_word(lengths::length_carrying(wide_at(l, 1), long_at(l, 3), long_at(l, 7)))
}
