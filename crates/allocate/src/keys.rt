// The allocation as one search over numbers, for a caller that plays many requests: a key for each voice, kept beside the voices.
ghost use Rattle.std.specs.Prelude.{◌≡◌, min, ◌<◌, length, take, true, map};
ghost use Rattle.allocate.specs.Allocation.{told_place};
ghost use Rattle.allocate.specs.Keys.{age_of, key_of, keys_of, rank_in, bound_of, lowest_key, limit_of, lowered, sounding_after, rekeyed};

use marks::Mark;
use mixer::VoiceStealingPolicy;
use voice::Voice;

// By document 01 all voices are of one age. In this crate and above, `present` names one of two boxes; the definitions of both take the same Bool, and an
// enum would say no more.
pub fn age(present: bool, rank: u8) -> u8
    ensures { result ≡ age_of present rank }
{
    if present { rank } else { 0 }
}

pub fn key(v: Voice, age: u8) -> u16
    ensures { result ≡ key_of age v }
{
    if v.is_audible() {
        32 * (v.priority as u16) + (age as u16) + 1
    } else {
        0
    }
}

pub fn keys_of(voices: [Voice; 16], marks: [Mark; 16], present: bool) -> [u16; 16]
    ensures { result ≡ keys_of present voices marks }
{
    let mut keys = [0u16; 16];
    for (i, v) in voices.iter().enumerate() {
        keys[i] = key(*v, age(present, marks[i].rank));
    }
    keys
}

// The rank in a key of the present rules.
pub fn rank(key: u16) -> u8
    ensures { result ≡ rank_in key }
{
    ((key % 32 + 255) % 256) as u8
}

// A voice is given where its key is below this: 1 is no kind, but above the key of an inaudible voice alone.
pub fn bound(policy: VoiceStealingPolicy, priority: u8) -> u16
    ensures { result ≡ bound_of policy priority }
{
    match policy {
        VoiceStealingPolicy::LowestPriorityOldest => 32 * (priority as u16) + 1,
        VoiceStealingPolicy::FreeChannelOnly => 1,
    }
}

pub fn lowest(keys: &[u16], n: usize, bound: u16) -> Option<usize>
    ensures { told_place result ≡ lowest_key (take n keys.now) bound }
{
    let mut best = None;
    let mut low = bound;
    for (i, r) in keys[..n.min(keys.len())].iter().enumerate() {
        if *r < low {
            low = *r;
            best = Some(i);
        }
    }
    best
}

fn limit(key: u16) -> u16
    ensures { result ≡ limit_of key }
{
    (key % 32 + 31) % 32 + 1
}

fn lowered_key(limit: u16, key: u16) -> u16
    ensures { result ≡ lowered limit key }
{
    if limit < key % 32 { key - 1 } else { key }
}

// Those younger than one that goes move down.
fn lower(keys: &mut [u16; 16], limit: u16)
    requires { length keys.old ≡ 16 }
    ensures { keys.new ≡ map (lowered limit) keys.old }
{
    for key in keys.iter_mut() {
        *key = lowered_key(limit, *key);
    }
}

// How many voices sound after one was started where this key stood: one above its rank. Document 01's box does not count them.
pub fn sounding_after(sounding: u8, key: u16, present: bool) -> u8
    requires { present ≡ true → sounding < 255 }
    ensures { result ≡ sounding_after present sounding key }
{
    if present {
        if key == 0 { sounding + 1 } else { sounding }
    } else {
        1
    }
}

// Voice i was started, of this priority and of a rank one below `above`. The keys change where they stand: one written into a copy, which is then
// read whole, would be waited for.
pub fn rekey(keys: &mut [u16; 16], i: usize, priority: u8, above: u8, present: bool)
    requires { (i < 16) × (length keys.old ≡ 16) }
    ensures { keys.new ≡ rekeyed present i priority above keys.old }
{
    if present {
        let limit = limit(keys[i]);
        lower(keys, limit);
    }
    keys[i] = 32 * (priority as u16) + (above as u16);
}
