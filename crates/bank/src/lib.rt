// Bank lookup. A bank's rate, count and length are kept; its bytes are lent to each call.
#![tactic(auto)]

ghost use Rattle.std.specs.Prelude.{◌≡◌, [], ◌+◌, ◌≤◌, ◌<◌, length, IfSome};
ghost use Rattle.error.specs.Told.{told, Answered};
ghost use Rattle.bank.specs.Entries.{little16_at, little32_at, place_of, entry_at};
ghost use Rattle.bank.specs.Banks.{Valid, ValidBank, bank_of, lent_bank, entry_given, fails_in, payload_number, payload_under, payload_part};
ghost use Rattle.bank.specs.Search.{up_to, decided, found_in, found_given};
ghost use Rattle.bank.specs.Loops.{settled};

use error::AudioError;
use tier::EffectKind;

pub const HEADER_SIZE: usize = 10;

pub const ENTRY_SIZE: usize = 16;

const LAST_KIND: u8 = 5;

#[derive(Clone, Copy, Debug, PartialEq, Eq)]
pub struct EffectEntry {
    pub id: u16,
    pub kind: EffectKind,
    pub flags: u8,
    pub default_gain_q8: u8,
    pub param0: u16,
    pub param1: u16,
    pub offset: u32,
    pub len: u32,
}

// What is kept of a bank; only setting it makes one.
#[derive(Clone, Copy, Debug, PartialEq, Eq)]
pub struct SoundBank {
    sample_rate_hz: u32,
    effect_count: u16,
    len: usize, // the bytes are lent to each call, since there is no heap to keep them in
}

impl SoundBank {
    #[tactic(auto, using(error::proofs::Told::answered), unfolding(crate::specs::Banks::bank_of))]
    pub fn new(sample_rate_hz: u32, effect_count: u16, len: usize) -> Result<SoundBank, AudioError>
        ensures { Answered Valid (bank_of sample_rate_hz effect_count len) result }
    {
        let end = HEADER_SIZE + ENTRY_SIZE * usize::from(effect_count);
        if sample_rate_hz > 65537 {
            return Err(AudioError::BadRate);
        }
        if end > len {
            return Err(AudioError::TruncatedBank);
        }
        Ok(SoundBank {
            sample_rate_hz,
            effect_count,
            len,
        })
    }

    pub fn sample_rate_hz(self) -> u32
        ensures { result ≡ self.sample_rate_hz }
    {
        self.sample_rate_hz
    }

    pub fn effect_count(self) -> u16
        ensures { result ≡ self.effect_count }
    {
        self.effect_count
    }

    pub fn len(self) -> usize
        ensures { result ≡ self.len }
    {
        self.len
    }
}

// The checks in front of every lookup.
#[tactic(auto, unfolding(crate::specs::Banks::lent_bank))]
pub fn lent_bank(bank: Option<SoundBank>, lent: usize) -> Result<SoundBank, AudioError>
    ensures { told result ≡ lent_bank bank lent }
{
    let b = bank.ok_or(AudioError::NoBank)?;
    if lent != b.len {
        return Err(AudioError::BankMismatch);
    }
    Ok(b)
}

// Little-endian numbers of two bytes and four. Two functions: no trait joins `from_le_bytes` of the widths.
fn little16_at(bytes: &[u8], k: usize) -> u16
    requires { k + 1 < length bytes.now }
    ensures { result ≡ little16_at bytes.now k }
{
    u16::from_le_bytes([bytes[k], bytes[k + 1]])
}

fn little32_at(bytes: &[u8], k: usize) -> u32
    requires { k + 3 < length bytes.now }
    ensures { result ≡ little32_at bytes.now k }
{
    u32::from_le_bytes([bytes[k], bytes[k + 1], bytes[k + 2], bytes[k + 3]])
}

// Entry i, its kind byte checked first.
#[tactic(auto, unfolding(crate::specs::Entries::entry_at, crate::specs::Entries::fields_at))]
fn read_at(bytes: &[u8], i: usize) -> Result<EffectEntry, AudioError>
    requires { place_of i + 16 ≤ length bytes.now }
    ensures { told result ≡ entry_at bytes.now i }
{
    let k = HEADER_SIZE + ENTRY_SIZE * i;
    let kind = EffectKind::try_from(bytes[k + 2])?;
    Ok(EffectEntry {
        id: little16_at(bytes, k),
        kind,
        flags: bytes[k + 3],
        default_gain_q8: bytes[k + 4],
        param0: little16_at(bytes, k + 6),
        param1: little16_at(bytes, k + 8),
        offset: little32_at(bytes, k + 10),
        len: u32::from(little16_at(bytes, k + 14)),
    })
}

#[tactic(auto, using(crate::proofs::Laws::lent_holds))]
pub fn entry(bank: Option<SoundBank>, bytes: &[u8], index: usize) -> Result<EffectEntry, AudioError>
    requires { ValidBank bank }
    ensures { told result ≡ entry_given bank bytes.now index }
{
    let b = lent_bank(bank, bytes.len())?;
    if index >= usize::from(b.effect_count) {
        return Err(AudioError::EffectNotFound);
    }
    read_at(bytes, index)
}

// No `for`: what is left is halved, and may end before.
// The first place at which the halving ends, by a hit or by a kind byte above 5. It reads three bytes of a place, and the caller
// the whole entry.
#[tactic(auto, using(crate::proofs::Steps::halving_steps))]
fn halve(bytes: &[u8], count: usize, id: u16) -> Option<usize>
    requires { place_of count ≤ length bytes.now }
    ensures within { IfSome result (λ i. i < count) }
    ensures same { found_in bytes.now count id ≡ settled bytes.now result (decided bytes.now id (up_to count)) }
{
    let mut low: usize = 0;
    let mut size = count;
    while size > 0 {
        let half = (size - 1) / 2;
        let mid = low + half;
        let k = HEADER_SIZE + ENTRY_SIZE * mid;
        if bytes[k + 2] > LAST_KIND {
            return Some(mid);
        }
        let here = little16_at(bytes, k);
        if here == id {
            return Some(mid);
        }
        if here < id {
            low = mid + 1;
            size = size - 1 - half;
        } else {
            size = half;
        }
    }
    None
}

// The same over every entry from 0. By index: an entry is sixteen bytes among others, and its place is what is asked for; `find` would take a closure
// with a `requires` of its own on the place.
#[tactic(auto, using(crate::proofs::Steps::scanning_steps))]
fn scan(bytes: &[u8], count: usize, id: u16) -> Option<usize>
    requires { place_of count ≤ length bytes.now }
    ensures within { IfSome result (λ i. i < count) }
    ensures same { decided bytes.now id (up_to count) ≡ settled bytes.now result (decided bytes.now id []) }
{
    for i in 0..count {
        let k = HEADER_SIZE + ENTRY_SIZE * i;
        if bytes[k + 2] > LAST_KIND {
            return Some(i);
        }
        if little16_at(bytes, k) == id {
            return Some(i);
        }
    }
    None
}

#[tactic(auto, using(crate::proofs::Laws::lent_holds), unfolding(crate::specs::Search::decided))]
pub fn find_by_id(bank: Option<SoundBank>, bytes: &[u8], id: u16) -> Result<EffectEntry, AudioError>
    requires { ValidBank bank }
    ensures { told result ≡ found_given bank bytes.now id }
{
    let b = lent_bank(bank, bytes.len())?;
    let count = usize::from(b.effect_count);
    let i = halve(bytes, count, id)
        .or_else(|| scan(bytes, count, id))
        .ok_or(AudioError::EffectNotFound)?;
    read_at(bytes, i)
}

// `parted` is the rule of a box, which the crates above hand on as it is; an enum would be tested in the same place.
// Whether a payload lies in a bank of so many bytes; if not, and `parted`, which end of it is wrong.
fn payload_in(size: usize, offset: u32, len: u32, parted: bool) -> Result<(), AudioError>
    ensures { told result ≡ payload_number parted (fails_in size offset len) }
{
    let start = offset as usize;
    if start + (len as usize) <= size {
        return Ok(());
    }
    if parted {
        if start > size {
            return Err(AudioError::BadOffset);
        }
        return Err(AudioError::BadLength);
    }
    Err(AudioError::TruncatedBank)
}

// A payload's number, and the payload: the very part of the bytes lent, empty where it is refused.
#[tactic(auto, unfolding(crate::specs::Banks::payload_under))]
pub fn payload_number(
    bank: Option<SoundBank>,
    bytes: &[u8],
    offset: u32,
    len: u32,
    parted: bool,
) -> Result<(), AudioError>
    ensures { told result ≡ payload_under parted bank bytes.now offset len }
{
    lent_bank(bank, bytes.len())?;
    payload_in(bytes.len(), offset, len, parted)
}

pub fn payload(bank: Option<SoundBank>, bytes: &[u8], offset: u32, len: u32) -> &[u8]
    ensures { result.now ≡ payload_part bank bytes.now offset len }
{
    match payload_number(bank, bytes, offset, len, false) {
        Err(_) => &bytes[0..0],
        Ok(()) => {
            let start = offset as usize;
            let end = start + (len as usize);
            &bytes[start..end]
        }
    }
}
