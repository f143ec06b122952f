// Lengths in samples with what is left over, so that many in a row do not drift.
#![tactic(auto)]

ghost use Rattle.std.specs.Prelude.{◌≡◌, ◌+◌, ◌*◌, ◌≤◌, ◌<◌};
ghost use Rattle.error.specs.Told.{told};
ghost use Rattle.lengths.specs.Lengths.{at_rate, carrying, length_of, total_of};

use error::AudioError;

// Whole samples, and the remainder in thousandths of one.
#[derive(Clone, Copy, Debug, PartialEq, Eq)]
pub struct Length {
    pub samples: u32,
    pub remainder: u16,
}

// The same of a whole list.
#[derive(Clone, Copy, Debug, PartialEq, Eq)]
pub struct Total {
    pub samples: u64,
    pub remainder: u16,
}

// A length in thousandths of a sample, and what is carried: below 2^33, since 65,535 × 65,537 is 2^32 − 1.
fn thousandths(ms: u16, sample_rate_hz: u32, carried: u32) -> u64
    requires { sample_rate_hz ≤ 65537 }
    ensures { (result ≡ ms * sample_rate_hz + carried) × (result < 8589934592) }
{
    u64::from(ms) * u64::from(sample_rate_hz) + u64::from(carried)
}

// A length that the remainder of the one before is added to.
#[tactic(auto, unfolding(crate::specs::Lengths::carrying, crate::specs::Lengths::parted))]
pub fn length_carrying(ms: u16, sample_rate_hz: u32, remainder: u32) -> Result<Length, AudioError>
    ensures { told result ≡ carrying ms sample_rate_hz remainder }
{
    if sample_rate_hz > 65537 {
        return Err(AudioError::BadRate);
    }
    let all = thousandths(ms, sample_rate_hz, remainder);
    Ok(Length {
        samples: (all / 1000) as u32,
        remainder: (all % 1000) as u16,
    })
}

pub fn length_in_samples(ms: u16, sample_rate_hz: u32) -> Result<Length, AudioError>
    ensures { told result ≡ length_of ms sample_rate_hz }
{
    length_carrying(ms, sample_rate_hz, 0)
}

// All lengths of a list, each carrying what the one before left over; the sum is held to the largest number of 64 bits.
pub fn total_in_samples(lengths: &[u16], sample_rate_hz: u32) -> Result<Total, AudioError>
    ensures { told result ≡ at_rate sample_rate_hz (total_of lengths.now sample_rate_hz) }
{
    if 65537 < sample_rate_hz {
        return Err(AudioError::BadRate);
    }
    let mut samples: u64 = 0;
    let mut remainder: u16 = 0;
    for &ms in lengths {
        let all = thousandths(ms, sample_rate_hz, u32::from(remainder));
        samples = samples.saturating_add(all / 1000);
        remainder = (all % 1000) as u16;
    }
    Ok(Total { samples, remainder })
}
