// How often a signal would be turned away, for planning a site.
ghost use Rattle.counts.specs.Counts.{counted};
ghost use Rattle.exports_parts.specs.Told.{Answers};
ghost use Rattle.exports.specs.Counting.{counts_told};

// The lists after which it is refused, then those after which it is accepted; 22 for a site past what is counted. A `match`, not `map`: tried, what a
// closure says of an array is not found by the check.
#[unsafe(no_mangle)]
pub extern "C" fn birchjack_turned_away(
    voices: u8,
    priorities: u8,
    requests: u8,
    priority: u8,
    out: &mut [u32; 2],
) -> u8
    ensures { Answers (counts_told (counted voices priorities requests priority)) out.old result out.new }
{
    match counts::turned_away(voices, priorities, requests, priority) {
        Err(e) => u8::from(e),
        Ok(c) => {
            *out = [c.refused, c.accepted];
            0
        }
    }
}
