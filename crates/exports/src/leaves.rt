// Numbers alone: gain, interpolation, pan, phase, sine, and those that may be refused.
ghost use Rattle.std.specs.Prelude.{◌≡◌, true};
ghost use Rattle.fixed.specs.Fixed.{increment, sine, toward, gained_by, pan_gains};
ghost use Rattle.config.specs.Config.{fade_step};
ghost use Rattle.output.specs.Levels.{limited_bus};
ghost use Rattle.exports_parts.specs.Told.{Answers};
ghost use Rattle.exports.specs.Leaves.{duty_told, sides_of};

use exports_parts::give;
use output::Period;

// A sample by a gain in 256ths, 255 the whole of it.
#[unsafe(no_mangle)]
pub extern "C" fn birchjack_gain(sample: i8, gain_q8: u8) -> i8
    ensures { result ≡ gained_by true sample gain_q8 }
{
    fixed::apply_gain_q8(sample, gain_q8)
}

// From a towards b by a fraction in 256ths.
#[unsafe(no_mangle)]
pub extern "C" fn birchjack_lerp(a: i8, b: i8, fraction: u8) -> i8
    ensures { result ≡ toward a b fraction }
{
    fixed::lerp_i8(a, b, fraction)
}

// The gains of a pan, left and right.
#[unsafe(no_mangle)]
pub extern "C" fn birchjack_pan_gains(pan_q8: u8, out: &mut [u8; 2])
    ensures { out.new ≡ sides_of (pan_gains pan_q8) }
{
    let g = fixed::pan_to_gains_q8(pan_q8);
    *out = [g.left, g.right];
}

// What a 32-bit phase gains with each sample.
#[unsafe(no_mangle)]
pub extern "C" fn birchjack_phase_increment(freq_hz: u32, sample_rate_hz: u32) -> u32
    ensures { result ≡ increment freq_hz sample_rate_hz }
{
    fixed::hz_to_phase_inc(freq_hz, sample_rate_hz)
}

// The sine at an index of 256.
#[unsafe(no_mangle)]
pub extern "C" fn birchjack_sine(index: u8) -> i8
    ensures { result ≡ sine index }
{
    fixed::sin_table(index)
}

// The sum of the voices, limited; 11 outside −2,048..2,032.
#[unsafe(no_mangle)]
pub extern "C" fn birchjack_limit(sum: i32, out: &mut i8) -> u8
    ensures { Answers (limited_bus sum) out.old result out.new }
{
    give(output::limit_bus(sum), out)
}

// A sample's compare value in a period; 3 for a period below 2.
#[unsafe(no_mangle)]
pub extern "C" fn birchjack_duty_of(sample: i8, period: u16, out: &mut u16) -> u8
    ensures { Answers (duty_told sample period) out.old result out.new }
{
    let read = Period::new(period);
    give(read.map(|p| output::pcm_to_duty(sample, p)), out)
}

// What a fade gains with each frame.
#[unsafe(no_mangle)]
pub extern "C" fn birchjack_fade_step(duration_ms: u16, sample_rate_hz: u32) -> u8
    ensures { result ≡ fade_step duration_ms sample_rate_hz }
{
    config::crossfade_step_q8(duration_ms, sample_rate_hz)
}
