// Entries as bytes: thirteen each, high byte first.
ghost use Rattle.std.specs.Prelude.{◌≡◌, ◌+◌, ◌≤◌, ◌<◌, length};
ghost use Rattle.bank_writer.specs.Bytes.{big16_at, big32_at, fields_at, entry_from};

use crate::NewEntry;

// Two functions: no trait joins `from_be_bytes` of the widths.
fn big16_at(bytes: &[u8], k: usize) -> u16
    requires { k + 1 < length bytes.now }
    ensures { result ≡ big16_at bytes.now k }
{
    u16::from_be_bytes([bytes[k], bytes[k + 1]])
}

fn big32_at(bytes: &[u8], k: usize) -> u32
    requires { k + 3 < length bytes.now }
    ensures { result ≡ big32_at bytes.now k }
{
    u32::from_be_bytes([bytes[k], bytes[k + 1], bytes[k + 2], bytes[k + 3]])
}

fn fields_at(bytes: &[u8], k: usize) -> NewEntry
    requires { k + 13 ≤ length bytes.now }
    ensures { result ≡ fields_at bytes.now k }
{
    NewEntry {
        id: big16_at(bytes, k),
        kind: bytes[k + 2],
        flags: bytes[k + 3],
        default_gain_q8: bytes[k + 4],
        param0: big16_at(bytes, k + 5),
        param1: big16_at(bytes, k + 7),
        len: big32_at(bytes, k + 9),
    }
}

#[tactic(auto, unfolding(crate::specs::Bytes::entry_from))]
pub fn entry_from(bytes: &[u8], k: usize) -> NewEntry
    requires { k ≤ 819 }
    ensures { result ≡ entry_from bytes.now k }
{
    if k + 13 <= bytes.len() {
        fields_at(bytes, k)
    } else {
        NewEntry::default()
    }
}
