// Writing a bank: the entries by rising id, then their payloads in the same order. What is sorted is places, not payloads: an entry's place
// is how many entries have a lower id, and a place that is taken twice shows an id that two entries share.
#![tactic(auto)]

ghost use Rattle.std.specs.Prelude.{◌≡◌, length};
ghost use Rattle.bank_writer.specs.Refusals.{bank_given, Wrote};
ghost use Rattle.bank_writer.specs.Bytes.{entries_from};

use error::AudioError;

mod cells;
mod checks;
mod listed;
mod sorting;

pub const MAX_ENTRIES: usize = 64;

// The bytes of an entry as a program hands it over.
pub const GIVEN_SIZE: usize = 13;

// What is given of an entry; its payload lies among those lent.
#[derive(Clone, Copy, Debug, Default, PartialEq, Eq)]
pub struct NewEntry {
    pub id: u16,
    pub kind: u8, // a byte, not an EffectKind: one above 5 is this writer's to refuse
    pub flags: u8,
    pub default_gain_q8: u8,
    pub param0: u16,
    pub param1: u16,
    pub len: u32,
}

// The first `count` entries with their payloads, which are lent end to end in the same order, as a bank at the front of `out`.
// An array and a count, not a slice: from C and from a record they come apart, and a count above 64 is this call's to refuse.
pub fn write_bank(
    header: [u8; 10],
    entries: [NewEntry; 64],
    count: usize,
    payloads: &[u8],
    out: &mut [u8],
) -> Result<usize, AudioError>
    ensures { Wrote (bank_given header entries count payloads.now (length out.old)) out.old out.new result }
{
    if count > MAX_ENTRIES {
        return Err(AudioError::BadEntries);
    }
    if checks::some_outside(entries, count) {
        return Err(AudioError::BadEntries);
    }
    let starts = checks::starts_of(entries);
    if starts[count] != payloads.len() {
        return Err(AudioError::BadEntries);
    }
    let ids = sorting::ids_of(entries, count);
    let Some(places) = sorting::order_of(&ids, count) else {
        return Err(AudioError::BadEntries);
    };
    let begin = 10 + 16 * count;
    let end = begin + payloads.len();
    if end > out.len() {
        return Err(AudioError::ShortBuffer);
    }
    cells::put(out, 0, &header);
    cells::put_entries(entries, &places, count, out);
    cells::put_payloads(&places, &starts, count, payloads, out);
    Ok(end)
}

// The entries that a program hands over as bytes, from the first on. Bytes behind the last whole one are not read, and those behind the
// sixty-fourth.
pub fn entries_from(bytes: &[u8]) -> [NewEntry; 64]
    ensures { result ≡ entries_from bytes.now }
{
    std::array::from_fn(|i| listed::entry_from(bytes, GIVEN_SIZE * i))
}
