// The cells of a bank, written from the front on.
ghost use Rattle.std.specs.Prelude.{◌≡◌, ℕ, ◌+◌, ◌≤◌, ◌<◌, length, take, get_or};
ghost use Rattle.std.proofs.lemmas.List.Edits.{sets};
ghost use Rattle.bank.specs.Entries.{place_of};
ghost use Rattle.bank_writer.specs.Layout.{entry_bytes, table};
ghost use Rattle.bank_writer.specs.Places.{Within, Cut, slices_of, picked_entries};

use crate::NewEntry;

pub fn put(out: &mut [u8], at: usize, bytes: &[u8])
    requires { at + length bytes.now ≤ length out.old }
    ensures { out.new ≡ sets out.old at bytes.now }
{
    // Without bytes there is no call of the C library's copy: sixty-four of them made a bank without payloads some 1,400 instructions longer.
    if bytes.is_empty() {
        return;
    }
    out[at..at + bytes.len()].copy_from_slice(bytes);
}

#[tactic(auto, unfolding(crate::specs::Layout::entry_bytes))]
fn entry_bytes(e: NewEntry, offset: usize) -> [u8; 16]
    ensures { result ≡ entry_bytes e offset }
{
    let id = e.id.to_le_bytes();
    let param0 = e.param0.to_le_bytes();
    let param1 = e.param1.to_le_bytes();
    let place = offset.to_le_bytes();
    let len = e.len.to_le_bytes();
    [
        id[0],
        id[1],
        e.kind,
        e.flags,
        e.default_gain_q8,
        0,
        param0[0],
        param0[1],
        param1[0],
        param1[1],
        place[0],
        place[1],
        place[2],
        place[3],
        len[0],
        len[1],
    ]
}

pub fn put_entries(entries: [NewEntry; 64], places: &[u8; 64], count: usize, out: &mut [u8])
    requires { (count ≤ 64) × (count ≤ length places.now) × Within places.now count 64 × (place_of count ≤ length out.old) }
    ensures { out.new ≡ sets out.old 10 (table (place_of count) (picked_entries entries (take count places.now))) }
{
    // `as usize` here and below, not `usize::from`: tried, and each use in both proofs needs the call's clause first, so it is no plainer.
    let mut offset = 10 + 16 * count;
    for (k, &i) in places[..count].iter().enumerate() {
        let e = entries[i as usize];
        let bytes = entry_bytes(e, offset);
        put(out, 10 + 16 * k, &bytes);
        offset += e.len as usize;
    }
}

// An array and a count, as `write_bank` has them.
pub fn put_payloads(
    places: &[u8; 64],
    starts: &[usize; 65],
    count: usize,
    payloads: &[u8],
    out: &mut [u8],
)
    requires count_bound { (count ≤ 64) × (count ≤ length places.now) × ((k : ℕ) → k < count → (get_or places.now k 0 < 64) × Cut starts.now payloads.now (get_or places.now k 0)) }
    requires places_in_bounds { place_of count + length (slices_of starts.now payloads.now (take count places.now)) ≤ length out.old }
    ensures { out.new ≡ sets out.old (place_of count) (slices_of starts.now payloads.now (take count places.now)) }
{
    let mut at = 10 + 16 * count;
    for &place in &places[..count] {
        let i = place as usize;
        let start = starts[i];
        let end = starts[i + 1];
        put(out, at, &payloads[start..end]);
        at += end - start;
    }
}
