// The source's cast of a float to an integer, worked out from the float's bits: std's saturating one takes the way by an f64, in each sample.
ghost use Rattle.std.specs.Prelude.{◌≡◌, T};
ghost use Rattle.std.specs.Float.Ieee.{le, lt, to_signed, to_unsigned};
ghost use Rattle.laws.specs.F32.{lit};
ghost use Rattle.polyblep.specs.Oscillators.{truncated};

// The whole part: x is `digits` * 2^(`exponent` - 150).
fn whole_part(x: f32) -> u32
    requires least { T (le (lit 1 1) x) }
    requires most { T (lt x (lit 128 1)) }
    ensures { result ≡ to_unsigned 7 x }
{
    let bits = x.to_bits();
    let digits = bits % 0x80_0000 + 0x80_0000;
    let exponent = bits >> 23;
    digits >> (150 - exponent)
}

// x without its fraction, held to -128..127; a NaN is 0.
pub(crate) fn to_i8(x: f32) -> i8
    ensures { result ≡ to_signed 7 x }
{
    if x >= 1.0 {
        if x < 128.0 { whole_part(x) as i8 } else { 127 }
    } else if x <= -1.0 {
        if x > -128.0 {
            -(whole_part(-x) as i8)
        } else {
            -128
        }
    } else {
        0
    }
}

// A sample of -1..1 as eight bits.
#[tactic(auto, unfolding(crate::specs::Oscillators::truncated, crate::proofs::Literals::of_bits, crate::proofs::Literals::round))]
pub(crate) fn truncated(s: f32) -> i8
    ensures { result ≡ truncated s }
{
    to_i8(s * 127.0)
}
