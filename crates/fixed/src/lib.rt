// Phases, samples and gains; decibels in floats.rt.
#![tactic(auto)]

ghost use Rattle.std.specs.Prelude.{◌≡◌, ◌+◌, ◌-◌, ◌*◌, ◌<◌, ◌≤◌, min, true, pos};
ghost use Rattle.std.specs.Int.{w8};
ghost use Rattle.std.proofs.Common.{to_z, of_z};
ghost use Rattle.laws.specs.Whole.{neg, held_to};
ghost use Rattle.fixed.specs.Fixed.{increment, index_of, fraction_of, sine, toward, gained, factor_of, gained_by, pan_gains, knee, limited};

mod floats;

pub use floats::{clamp_f32, db_to_q8, float_of, q8_to_db};

// A 32-bit phase; its top bits index a wave.
pub type Phase = u32;

// What a call gives, and the oscillator, source or voice after it.
#[derive(Clone, Copy, Debug, PartialEq, Eq)]
pub struct Step<V, T> {
    pub voice: V,
    pub given: T,
}

// The phase's step per sample, modulo 2^32.
pub fn hz_to_phase_inc(freq_hz: u32, sample_rate_hz: u32) -> u32
    ensures { result ≡ increment freq_hz sample_rate_hz }
{
    if sample_rate_hz == 0 {
        return 0;
    }
    let wide = u64::from(freq_hz) * 0x1_0000_0000;
    (wide / u64::from(sample_rate_hz) % 0x1_0000_0000) as u32
}

pub fn phase_index(phase: Phase) -> u8
    ensures { result ≡ index_of phase }
{
    (phase >> 24) as u8
}

// The source writes this `(phase >> 16) as u8` where it is used.
pub fn phase_fraction(phase: Phase) -> u8
    ensures { result ≡ fraction_of phase }
{
    ((phase >> 16) % 256) as u8
}

// Document 01's y, "2x below 128, else 2(255 − x)": the smaller of the two.
fn fold(index: u8) -> u16
    ensures { result ≡ min (2 * index) (510 - 2 * index) }
{
    let up = 2 * u16::from(index);
    up.min(510 - up)
}

// Both halves by one product, y × (255 - 2x): the second factor is 255 - y in the first half and y - 255 in the other, so it has the
// half's sign.
pub fn sin_table(index: u8) -> i8
    ensures { result ≡ sine index }
{
    let y = fold(index) as i16;
    let up = 2 * i16::from(index);
    (y * (255 - up) / 256) as i8
}

// The source's `b as i8`, a public function of its name: the byte read as two's complement.
pub fn as_i8(b: u8) -> i8
    ensures { result ≡ to_z w8 b }
{
    b.cast_signed()
}

// The source's `s as u8`, public as well: its bits.
pub fn as_u8(s: i8) -> u8
    ensures { result ≡ of_z w8 s }
{
    s.cast_unsigned()
}

// From a toward b by t 256ths: no clamp is needed, since the result lies between the two.
pub fn lerp_i8(a: i8, b: i8, frac: u8) -> i8
    ensures { result ≡ toward a b frac }
{
    let x = i32::from(a);
    let d = i32::from(b) - x;
    (x + d * i32::from(frac) / 256) as i8
}

pub fn mix_crossfade(a: i8, b: i8, t_q8: u8) -> i8
    ensures { result ≡ toward a b t_q8 }
{
    lerp_i8(a, b, t_q8)
}

// What a gain stands for, of 256: under the rule `whole` 255 is all of it.
pub fn gain_factor(gain_q8: u8, whole: bool) -> u16
    ensures { (result ≡ factor_of whole gain_q8) × (result ≤ 256) }
{
    if gain_q8 == 255 {
        if whole { 256 } else { 255 }
    } else {
        u16::from(gain_q8)
    }
}

pub fn apply_gain_by(sample: i8, gain_q8: u8, whole: bool) -> i8
    ensures { result ≡ gained_by whole sample gain_q8 }
{
    if whole && gain_q8 == 255 {
        return sample;
    }
    ((i16::from(sample) * i16::from(gain_q8)) >> 8) as i8
}

// The present rule: 255 hands the sample through.
pub fn apply_gain_q8(sample: i8, gain_q8: u8) -> i8
    ensures { result ≡ gained_by true sample gain_q8 }
{
    apply_gain_by(sample, gain_q8, true)
}

// Document 01's rule, which an FM source's depth keeps.
pub fn apply_document_01_gain(sample: i8, gain_q8: u8) -> i8
    ensures { result ≡ gained sample gain_q8 }
{
    apply_gain_by(sample, gain_q8, false)
}

// A public function of the source.
#[tactic(auto, using(std::proofs::lemmas::Int::ints, std::proofs::lemmas::Int::clamps), unfolding(laws::specs::Whole::held_to))]
pub fn clamp_sample(v: i32) -> i8
    ensures { result ≡ held_to (neg 128) (pos 127) v }
{
    v.clamp(-128, 127) as i8
}

// The gains of the two sides; a pair in the source.
#[derive(Clone, Copy, Debug, PartialEq, Eq)]
pub struct PanGains {
    pub left: u8,
    pub right: u8,
}

pub fn pan_to_gains_q8(pan_q8: u8) -> PanGains
    ensures { result ≡ pan_gains pan_q8 }
{
    let pan = u32::from(pan_q8);
    if pan <= 128 {
        PanGains {
            left: 255,
            right: (pan * 255 / 128) as u8,
        }
    } else {
        PanGains {
            left: ((255 - pan) * 255 / 127) as u8,
            right: 255,
        }
    }
}

// A size n on one side of 0, with `room` steps above 96. From an excess of 992 on the quotient is room - 1, so a larger
// excess is taken for 1,024: then no product leaves 32 bits, and every sum has its answer.
fn pressed(room: u32, n: u32) -> u32
    requires { (0 < room) × (room ≤ 32) }
    ensures { (result ≡ knee room n) × (result < 96 + room) }
{
    if n <= 96 {
        return n;
    }
    let e = if n < 1120 { n - 96 } else { 1024 };
    96 + room * e / (e + room)
}

pub fn soft_limit_i8(sum: i32) -> i8
    ensures { result ≡ limited sum }
{
    let n = sum.unsigned_abs();
    if sum < 0 {
        -(pressed(32, n) as i8)
    } else {
        pressed(31, n) as i8
    }
}
