// Lengths in samples with what is left over, so that many in a row do not drift: 2 for a rate above 65,537.
ghost use Rattle.std.specs.Prelude.{◌≡◌};
ghost use Rattle.error.specs.Told.{told};
ghost use Rattle.lengths.specs.Lengths.{at_rate, carrying, length_of, total_of};
ghost use Rattle.exports_parts.specs.Told.{Answers};
ghost use Rattle.exports.specs.Lengths.{length_told, total_told};

use error::AudioError;
use lengths::Length;

// A `match` here and below, not `map`: tried, what a closure says of an array is not found by the check.
fn put_length(read: Result<Length, AudioError>, out: &mut [u32; 2]) -> u8
    ensures { Answers (length_told (told read)) out.old result out.new }
{
    match read {
        Err(e) => u8::from(e),
        Ok(n) => {
            *out = [n.samples, u32::from(n.remainder)];
            0
        }
    }
}

// A length: its whole samples, and the remainder in thousandths of one.
#[unsafe(no_mangle)]
pub extern "C" fn birchjack_length(ms: u16, sample_rate_hz: u32, out: &mut [u32; 2]) -> u8
    ensures { Answers (length_told (length_of ms sample_rate_hz)) out.old result out.new }
{
    put_length(lengths::length_in_samples(ms, sample_rate_hz), out)
}

// The same, with the remainder of the one before added.
#[unsafe(no_mangle)]
pub extern "C" fn birchjack_length_carrying(
    ms: u16,
    sample_rate_hz: u32,
    remainder: u32,
    out: &mut [u32; 2],
) -> u8
    ensures { Answers (length_told (carrying ms sample_rate_hz remainder)) out.old result out.new }
{
    put_length(lengths::length_carrying(ms, sample_rate_hz, remainder), out)
}

// The same of a whole list, each carrying what the one before left over.
#[unsafe(no_mangle)]
pub extern "C" fn birchjack_total_length(
    lengths: &[u16],
    sample_rate_hz: u32,
    out: &mut [u64; 2],
) -> u8
    ensures { Answers (total_told (at_rate sample_rate_hz (total_of lengths.now sample_rate_hz))) out.old result out.new }
{
    match lengths::total_in_samples(lengths, sample_rate_hz) {
        Err(e) => u8::from(e),
        Ok(t) => {
            *out = [t.samples, u64::from(t.remainder)];
            0
        }
    }
}
