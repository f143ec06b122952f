// The corrections next to an edge, and the sine.
ghost use Rattle.std.specs.Prelude.{◌≡◌, T};
ghost use Rattle.polyblep.specs.Blep.{poly_blep, poly_blamp};
ghost use Rattle.polyblep.specs.Ranges.{is_phase};
ghost use Rattle.polyblep.specs.Sine.{arch};
ghost use Rattle.polyblep.specs.Waves.{sine_part};

const PI: f32 = 3.14159265358979323846264338327950288;

#[tactic(auto, unfolding(crate::specs::Blep::poly_blep, crate::proofs::Literals::of_bits, crate::proofs::Literals::round))]
pub fn poly_blep(t: f32, dt: f32) -> f32
    ensures { result ≡ poly_blep t dt }
{
    if dt <= 0.0 {
        return 0.0;
    }
    if t < dt {
        let u = t / dt;
        u + u - u * u - 1.0
    } else if t > 1.0 - dt {
        let u = (t - 1.0) / dt;
        u * u + u + u + 1.0
    } else {
        0.0
    }
}

#[tactic(auto, unfolding(crate::specs::Blep::poly_blamp, crate::proofs::Literals::of_bits, crate::proofs::Literals::round, crate::proofs::Literals::neg))]
pub fn poly_blamp(t: f32, dt: f32) -> f32
    ensures { result ≡ poly_blamp t dt }
{
    if dt <= 0.0 {
        return 0.0;
    }
    if t < dt {
        let u = t / dt - 1.0;
        -(u * u * u) / 3.0 * (4.0 * dt)
    } else if t > 1.0 - dt {
        let u = (t - 1.0) / dt + 1.0;
        (u * u * u) / 3.0 * (4.0 * dt)
    } else {
        0.0
    }
}

#[tactic(auto, unfolding(crate::specs::Sine::arch, crate::proofs::Literals::of_bits, crate::proofs::Literals::round))]
fn arch_f32(sign: f32, y: f32) -> f32
    ensures { result ≡ arch sign y }
{
    sign * (16.0 * y * (PI - y)) / (5.0 * PI * PI - 4.0 * y * (PI - y))
}

// The source's `sin_f32(t * 2.0 * PI)`. Its remainder by 2 PI and the turn of a negative angle change nothing at a phase of
// 0..1 (proofs/Turn.antt), so neither is computed here. A plain float, as waves.rt says.
pub(crate) fn sine_part(t: f32) -> f32
    requires { T (is_phase t) }
    ensures { result ≡ sine_part t }
{
    let x = t * 2.0 * PI;
    if x > PI {
        arch_f32(-1.0, x - PI)
    } else {
        arch_f32(1.0, x)
    }
}
