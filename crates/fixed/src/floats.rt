// Floats by their bits and held to a range; decibels, in the source's order of operations.
ghost use Rattle.std.specs.Prelude.{◌≡◌, from_bits};
ghost use Rattle.std.specs.Float.{binary32};
ghost use Rattle.laws.specs.F32.{held_to_f};
ghost use Rattle.fixed.specs.Decibels.{gain_of_db, db_of_gain};

// The float that bits stand for. A NaN's pattern gives the one NaN that there is in a number's value.
pub fn float_of(bits: u32) -> f32
    ensures { result ≡ from_bits binary32 bits }
{
    if bits % 0x8000_0000 > 0x7f80_0000 {
        f32::NAN
    } else {
        f32::from_bits(bits)
    }
}

// A public function of the source, its `x.clamp(lo, hi)`. std's asks that lo <= hi, which this asks of no caller.
#[tactic(auto, unfolding(laws::specs::F32::held_to_f))]
pub fn clamp_f32(x: f32, lo: f32, hi: f32) -> f32
    ensures { result ≡ held_to_f lo hi x }
{
    if x < lo {
        return lo;
    }
    if x > hi {
        return hi;
    }
    x
}

#[tactic(auto, unfolding(crate::specs::Decibels::gain_of_db, crate::specs::Decibels::ten_to, crate::specs::Decibels::cut_to_byte, crate::proofs::Literals::of_bits, crate::proofs::Literals::round, crate::proofs::Literals::neg))]
pub fn db_to_q8(db: f32) -> u8
    ensures { result ≡ gain_of_db db }
{
    if db >= 0.0 {
        return 255;
    }
    if db <= -48.0 {
        return 0;
    }
    let x = db / 20.0;
    let lin = 1.0 + 2.3026 * x + 2.651 * x * x + 2.03 * x * x * x;
    std::num::saturating_f32_to_u8(clamp_f32(lin * 255.0, 0.0, 255.0))
}

pub fn q8_to_db(gain_q8: u8) -> f32
    ensures { result ≡ db_of_gain gain_q8 }
{
    if gain_q8 == 0 {
        return -96.0;
    }
    let lin = f32::from(gain_q8) / 255.0;
    let bits = lin.to_bits();
    let exp = ((bits >> 23) % 256) as i32 - 127;
    let mantissa = f32::from_bits(bits % 0x80_0000 + 0x3F80_0000);
    let log2_val = exp as f32 + (mantissa - 1.0) * (1.4427 - 0.4427 * (mantissa - 1.0));
    let log10_val = log2_val * 0.30103;
    clamp_f32(20.0 * log10_val, -96.0, 0.0)
}
