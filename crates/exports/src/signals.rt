// The evacuation pattern and its reader. Each call opens its own: 12 for a rate below 20, 2 for one above 65,537.
ghost use Rattle.std.specs.Prelude.{length};
ghost use Rattle.exports_parts.specs.Told.{Answers};
ghost use Rattle.exports.specs.Signals.{cycle_told, sounds_told, run_told, read_told};

use evacuation::{Pattern, Reader};
use exports_parts::give;

// How many samples a cycle has.
#[unsafe(no_mangle)]
pub extern "C" fn birchjack_evacuation_cycle(sample_rate_hz: u32, out: &mut u32) -> u8
    ensures { Answers (cycle_told sample_rate_hz) out.old result out.new }
{
    let opened = Pattern::open(sample_rate_hz);
    give(opened.map(|p| p.cycle_samples()), out)
}

// Whether the signal sounds at a sample, counted from its start: 1 or 0.
#[unsafe(no_mangle)]
pub extern "C" fn birchjack_evacuation_sounds(sample_rate_hz: u32, sample: u64, out: &mut u8) -> u8
    ensures { Answers (sounds_told sample_rate_hz sample) out.old result out.new }
{
    let opened = Pattern::open(sample_rate_hz);
    give(opened.map(|p| u8::from(p.sounds(sample))), out)
}

// The samples from `first` on, one to a cell: 1 or 0.
#[unsafe(no_mangle)]
pub extern "C" fn birchjack_evacuation_fill(sample_rate_hz: u32, first: u64, out: &mut [u8]) -> u8
    ensures { Answers (run_told sample_rate_hz first (length out.old)) out.old result out.new }
{
    match Pattern::open(sample_rate_hz) {
        Ok(p) => {
            p.fill(first, out);
            0
        }
        Err(e) => u8::from(e),
    }
}

// Whether a recording, a byte a sample, is whole cycles of the pattern: 1 or 0.
#[unsafe(no_mangle)]
pub extern "C" fn birchjack_evacuation_reads(
    sample_rate_hz: u32,
    recording: &[u8],
    out: &mut u8,
) -> u8
    ensures { Answers (read_told sample_rate_hz recording.now) out.old result out.new }
{
    let opened = Reader::open(sample_rate_hz);
    give(opened.map(|d| u8::from(d.whole_cycles(recording))), out)
}
