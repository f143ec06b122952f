// An envelope alone.
ghost use Rattle.std.specs.Prelude.{◌≡◌, length};
ghost use Rattle.laws.specs.Runs.{after};
ghost use Rattle.envelope.specs.Adsrs.{ticked};
ghost use Rattle.exports_parts.specs.Told.{Answers};
ghost use Rattle.exports.specs.Levels.{spec_of, levels_from, levels_told};

use envelope::{AdsrSpec, Envelope};

// The level after each tick, one to a cell.
fn levels(first: Envelope, out: &mut [u8]) -> Envelope
    ensures last { result ≡ after ticked (length out.old) first }
    ensures out_after { out.new ≡ levels_from (length out.old) first }
{
    let mut e = first;
    for cell in out {
        e = e.tick();
        *cell = e.level();
    }
    e
}

// A triggered envelope's levels after each tick before its release and after it, one to each cell of the two buffers; 2 for a rate above
// 65,537.
#[unsafe(no_mangle)]
pub extern "C" fn birchjack_envelope(
    attack_ms: u16,
    decay_ms: u16,
    sustain_q8: u8,
    release_ms: u16,
    sample_rate_hz: u32,
    held: &mut [u8],
    left: &mut [u8],
) -> u8
    ensures { Answers (levels_told (length held.old) (length left.old) (spec_of attack_ms decay_ms sustain_q8 release_ms) sample_rate_hz) (held.old, left.old) result (held.new, left.new) }
{
    let spec = AdsrSpec {
        attack_ms,
        decay_ms,
        sustain_q8,
        release_ms,
    };
    match Envelope::open(spec, sample_rate_hz) {
        Ok(e) => {
            let last = levels(e.trigger(), held);
            levels(last.release(), left);
            0
        }
        Err(e) => u8::from(e),
    }
}
