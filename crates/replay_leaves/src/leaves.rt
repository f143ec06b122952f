// The records of one number each: fields in, number out.
ghost use Rattle.std.specs.Prelude.{◌≡◌};
ghost use Rattle.replay_leaves.specs.Replies.{gain_reply, lerp_reply, pan_reply, increment_reply, sine_reply, to_gain_reply, to_decibels_reply, phase_reply, crossfade_reply, clamp_reply, kind_reply};

use crate::Reply;
use hex_digits::{byte_at, long_at};
use tier::EffectKind;

// By document 01's rule, or by the present one. The flag goes to `fixed` as it is, and chooses no step here.
#[tactic(auto, unfolding(crate::specs::Replies::gain_reply))]
pub(crate) fn gain(l: &[u8], present: bool) -> Reply
    ensures { result ≡ gain_reply present l.now }
{
    let sample = fixed::as_i8(byte_at(l, 1));
    let value = fixed::as_u8(fixed::apply_gain_by(sample, byte_at(l, 2), present));
    Reply::Word {
        value: value as u64,
        digits: 2,
    }
}

#[tactic(auto, unfolding(crate::specs::Replies::lerp_reply))]
pub(crate) fn lerp(l: &[u8]) -> Reply
    ensures { result ≡ lerp_reply l.now }
{
    let a = fixed::as_i8(byte_at(l, 1));
    let b = fixed::as_i8(byte_at(l, 2));
    let value = fixed::as_u8(fixed::lerp_i8(a, b, byte_at(l, 3)));
    Reply::Word {
        value: value as u64,
        digits: 2,
    }
}

#[tactic(auto, unfolding(crate::specs::Replies::pan_reply))]
pub(crate) fn pan_gains(l: &[u8]) -> Reply
    ensures { result ≡ pan_reply l.now }
{
    let gains = fixed::pan_to_gains_q8(byte_at(l, 1));
    Reply::Word {
        value: 256 * (gains.left as u64) + (gains.right as u64),
        digits: 4,
    }
}

#[tactic(auto, unfolding(crate::specs::Replies::increment_reply))]
pub(crate) fn phase_increment(l: &[u8]) -> Reply
    ensures { result ≡ increment_reply l.now }
{
    let value = fixed::hz_to_phase_inc(long_at(l, 1), long_at(l, 5));
    Reply::Word {
        value: value as u64,
        digits: 8,
    }
}

#[tactic(auto, unfolding(crate::specs::Replies::sine_reply))]
pub(crate) fn sine(l: &[u8]) -> Reply
    ensures { result ≡ sine_reply l.now }
{
    let value = fixed::as_u8(fixed::sin_table(byte_at(l, 1)));
    Reply::Word {
        value: value as u64,
        digits: 2,
    }
}

#[tactic(auto, unfolding(crate::specs::Replies::to_gain_reply))]
pub(crate) fn decibels_to_gain(l: &[u8]) -> Reply
    ensures { result ≡ to_gain_reply l.now }
{
    let value = fixed::db_to_q8(fixed::float_of(long_at(l, 1)));
    Reply::Word {
        value: value as u64,
        digits: 2,
    }
}

pub(crate) fn gain_to_decibels(l: &[u8]) -> Reply
    ensures { result ≡ to_decibels_reply l.now }
{
    let value = fixed::q8_to_db(byte_at(l, 1)).to_bits();
    Reply::Word {
        value: value as u64,
        digits: 8,
    }
}

#[tactic(auto, unfolding(crate::specs::Replies::phase_reply))]
pub(crate) fn phase(l: &[u8]) -> Reply
    ensures { result ≡ phase_reply l.now }
{
    let phase = long_at(l, 1);
    let index = fixed::phase_index(phase);
    let fraction = fixed::phase_fraction(phase);
    Reply::Word {
        value: 256 * (index as u64) + (fraction as u64),
        digits: 4,
    }
}

#[tactic(auto, unfolding(crate::specs::Replies::crossfade_reply))]
pub(crate) fn crossfade(l: &[u8]) -> Reply
    ensures { result ≡ crossfade_reply l.now }
{
    let a = fixed::as_i8(byte_at(l, 1));
    let b = fixed::as_i8(byte_at(l, 2));
    let value = fixed::as_u8(fixed::mix_crossfade(a, b, byte_at(l, 3)));
    Reply::Word {
        value: value as u64,
        digits: 2,
    }
}

#[tactic(auto, unfolding(crate::specs::Replies::clamp_reply))]
pub(crate) fn clamp(l: &[u8]) -> Reply
    ensures { result ≡ clamp_reply l.now }
{
    let value = fixed::as_u8(fixed::clamp_sample(long_at(l, 1).cast_signed()));
    Reply::Word {
        value: value as u64,
        digits: 2,
    }
}

#[tactic(auto, unfolding(crate::specs::Replies::kind_reply))]
pub(crate) fn kind(l: &[u8]) -> Reply
    ensures { result ≡ kind_reply l.now }
{
    match EffectKind::try_from(byte_at(l, 1)) {
        Ok(k) => Reply::Word {
            value: u64::from(u8::from(k)),
            digits: 4,
        },
        Err(e) => Reply::Word {
            value: u64::from(u8::from(e)) * 256,
            digits: 4,
        },
    }
}
