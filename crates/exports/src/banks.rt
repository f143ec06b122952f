// A bank that is set for one call alone: its search and its payloads.
ghost use Rattle.std.specs.Prelude.{◌≡◌};
ghost use Rattle.error.specs.Told.{told, number_in};
ghost use Rattle.exports_parts.specs.Told.{Answers};
ghost use Rattle.exports.specs.Banks.{searched, entry_cells, entry_told, looked_up, found_part};

use bank::{EffectEntry, SoundBank};
use error::AudioError;
use exports_parts::{give, number_of};

// The entry's fields, in their order.
fn put_entry(e: EffectEntry, out: &mut [u32; 8])
    ensures { out.new ≡ entry_cells e }
{
    *out = [
        u32::from(e.id),
        u32::from(u8::from(e.kind)),
        u32::from(e.flags),
        u32::from(e.default_gain_q8),
        u32::from(e.param0),
        u32::from(e.param1),
        e.offset,
        e.len,
    ];
}

#[tactic(auto, unfolding(crate::specs::Banks::searched))]
fn search(
    bytes: &[u8],
    sample_rate_hz: u32,
    effect_count: u16,
    id: u16,
) -> Result<EffectEntry, AudioError>
    ensures { told result ≡ searched bytes.now sample_rate_hz effect_count id }
{
    let b = SoundBank::new(sample_rate_hz, effect_count, bytes.len())?;
    bank::find_by_id(Some(b), bytes, id)
}

// Searches a bank for an id: 0 and the entry's fields, or the number of the refusal and the cells as they were.
#[unsafe(no_mangle)]
pub extern "C" fn birchjack_find(
    bytes: &[u8],
    sample_rate_hz: u32,
    effect_count: u16,
    id: u16,
    out: &mut [u32; 8],
) -> u8
    ensures { Answers (entry_told (searched bytes.now sample_rate_hz effect_count id)) out.old result out.new }
{
    match search(bytes, sample_rate_hz, effect_count, id) {
        Err(e) => u8::from(e),
        Ok(e) => {
            put_entry(e, out);
            0
        }
    }
}

#[tactic(auto, unfolding(crate::specs::Banks::looked_up))]
fn look_up(
    bytes: &[u8],
    sample_rate_hz: u32,
    effect_count: u16,
    offset: u32,
    len: u32,
) -> Result<(), AudioError>
    ensures { told result ≡ looked_up bytes.now sample_rate_hz effect_count offset len }
{
    let b = SoundBank::new(sample_rate_hz, effect_count, bytes.len())?;
    bank::payload_number(Some(b), bytes, offset, len, true)
}

// Whether a payload is there: 0, and then it is the part of the bytes at the offset, of the length; or the number of the refusal.
#[unsafe(no_mangle)]
pub extern "C" fn birchjack_payload(
    bytes: &[u8],
    sample_rate_hz: u32,
    effect_count: u16,
    offset: u32,
    len: u32,
) -> u8
    ensures { result ≡ number_in (looked_up bytes.now sample_rate_hz effect_count offset len) }
{
    number_of(look_up(bytes, sample_rate_hz, effect_count, offset, len))
}

fn found_part(
    bytes: &[u8],
    sample_rate_hz: u32,
    effect_count: u16,
    id: u16,
) -> Result<[u32; 2], AudioError>
    ensures { told result ≡ found_part bytes.now sample_rate_hz effect_count (searched bytes.now sample_rate_hz effect_count id) }
{
    let e = search(bytes, sample_rate_hz, effect_count, id)?;
    look_up(bytes, sample_rate_hz, effect_count, e.offset, e.len)?;
    Ok([e.offset, e.len])
}

// The payload of the entry with an id: 0 and its offset and length in the bytes, or the number of the search's or the lookup's refusal.
#[unsafe(no_mangle)]
pub extern "C" fn birchjack_payload_of(
    bytes: &[u8],
    sample_rate_hz: u32,
    effect_count: u16,
    id: u16,
    out: &mut [u32; 2],
) -> u8
    ensures { Answers (found_part bytes.now sample_rate_hz effect_count (searched bytes.now sample_rate_hz effect_count id)) out.old result out.new }
{
    give(found_part(bytes, sample_rate_hz, effect_count, id), out)
}
