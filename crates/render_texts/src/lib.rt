// A line of text as it is put together: words, numbers and times. What goes past its room is left out.
#![tactic(auto)]

ghost use Rattle.std.specs.Prelude.{◌≡◌, ◌≤◌, [], drop};
ghost use Rattle.render_texts.specs.Texts as T;

// The first len of these bytes: a String, were there a heap. No invariant on len: every text may be said more, one that is too long too, and a
// narrower type would ask more of callers. Derived equality would tell apart texts that say the same.
#[derive(Clone, Copy, Debug)]
pub struct Text {
    pub bytes: [u8; 256],
    pub len: usize,
}

// A time in the sound: so many frames, at a rate.
#[derive(Clone, Copy, Debug, PartialEq, Eq)]
pub struct Clock {
    pub frames: u32,
    pub rate: u32,
}

pub fn empty() -> Text
    ensures { T.Says [] result }
{
    Text {
        bytes: [0; 256],
        len: 0,
    }
}

pub fn say(t: Text, words: &[u8]) -> Text
    ensures { T.Adds t words.now result }
{
    let mut bytes = t.bytes;
    let len = t.len.min(256);
    let more = words.len().min(256 - len);
    bytes[len..len + more].copy_from_slice(&words[..more]);
    Text {
        bytes,
        len: len + more,
    }
}

fn digit(n: u64) -> u8
    ensures { result ≡ T.digit n }
{
    48 + (n % 10) as u8
}

// Puts a number's digits at the end, and says where they begin. By hand: std's Display writes into a String or a fmt::Write, and the
// kit's itoa would be one more library to believe. No `for`: only the digits themselves show how many there are.
fn decimal(n: u64, digits: &mut [u8; 20]) -> usize
    ensures in_bounds { result ≤ 20 }
    ensures digits { drop result digits.new ≡ T.decimal n }
{
    let mut at = 19;
    digits[at] = digit(n);
    let mut rest = n / 10;
    while rest > 0 {
        at -= 1;
        digits[at] = digit(rest);
        rest /= 10;
    }
    at
}

pub fn count(t: Text, n: u64) -> Text
    ensures { T.Adds t (T.decimal n) result }
{
    let mut digits = [0u8; 20];
    let k = decimal(n, &mut digits);
    say(t, &digits[k..])
}

// A number of things, as "1 voice" and "3 voices".
#[tactic(auto, using(crate::proofs::Laws::joined, crate::proofs::Laws::nothing), unfolding(crate::specs::Texts::things))]
pub fn things(t: Text, n: u64, name: &[u8]) -> Text
    ensures { T.Adds t (T.things n name.now) result }
{
    let counted = count(t, n);
    let named = say(counted, name);
    if n == 1 {
        return named;
    }
    say(named, b"s")
}

fn milliseconds(c: Clock) -> u64
    ensures { result ≡ T.milliseconds_of c }
{
    if c.rate == 0 {
        return 0;
    }
    u64::from(c.frames) * 1000 / u64::from(c.rate)
}

// Milliseconds as seconds with three digits, as "12.500 s".
#[tactic(auto, using(crate::proofs::Laws::joined), unfolding(crate::specs::Texts::seconds_text))]
fn seconds(t: Text, ms: u64) -> Text
    ensures { T.Adds t (T.seconds_text ms) result }
{
    let whole = count(t, ms / 1000);
    let rest = [b'.', digit(ms / 100), digit(ms / 10), digit(ms)];
    let all = say(whole, &rest);
    say(all, b" s")
}

// Tenths as a number with a digit after the point, as "4.7".
#[tactic(auto, using(crate::proofs::Laws::joined), unfolding(crate::specs::Texts::tenths_text))]
pub fn tenths(t: Text, n: u64) -> Text
    ensures { T.Adds t (T.tenths_text n) result }
{
    let whole = count(t, n / 10);
    let rest = [b'.', digit(n)];
    say(whole, &rest)
}

#[tactic(auto, using(crate::proofs::Laws::then))]
fn indented(ms: u64) -> Text
    ensures { T.Says (T.indent ms) result }
{
    let t = empty();
    if ms < 10_000 {
        return say(t, b"    ");
    }
    if ms < 100_000 {
        return say(t, b"   ");
    }
    if ms < 1_000_000 {
        return say(t, b"  ");
    }
    if ms < 10_000_000 {
        return say(t, b" ");
    }
    t
}

// The time at the head of a line.
#[tactic(auto, using(crate::proofs::Laws::then), unfolding(crate::specs::Texts::time_text))]
pub fn at_time(c: Clock) -> Text
    ensures { T.Says (T.time_text c) result }
{
    let ms = milliseconds(c);
    let t = seconds(indented(ms), ms);
    say(t, b"  ")
}

// How much sound there is.
#[tactic(auto, using(crate::proofs::Laws::then))]
pub fn so_long(c: Clock) -> Text
    ensures { T.Says (T.seconds_text (T.milliseconds_of c)) result }
{
    seconds(empty(), milliseconds(c))
}
