// A box of the present rules (document 02) that lives for one call: it is opened, gets a bank, plays requests, and is asked for frames.
// What is handed over comes one by one from C (C interface), and each call's clause names its fill: a closure for the last step would not be plainer.
ghost use Rattle.std.specs.Prelude.{◌≡◌};
ghost use Rattle.buffers.specs.Buffers.{to_i16};
ghost use Rattle.buffers.specs.declared.Level.TheVariants.{Duty};
ghost use Rattle.buffers.specs.declared.Shape.TheVariants.{Once, Sides};
ghost use Rattle.output.specs.declared.DutyMode.TheVariants as M;
ghost use Rattle.exports_parts.specs.Told.{Answers};
ghost use Rattle.exports_parts.specs.Plays.{policy_of, mode_of, settings, readied, with_poly_blep, sounded, panned_from, cells_told, levels_told};
ghost use Rattle.exports_play.specs.Plays.{calls};

use config::DEFAULT_PWM_PERIOD;
use exports_play::ready;
use output::DutyMode;
use sounder::Sounder;

// Above 3 none is started: C hands a number, and one `if` over it is as plain as an `Option` of a waveform.
#[tactic(auto, using(std::proofs::lemmas::Bool::Decides::nat_tests), unfolding(exports_parts::specs::Plays::with_poly_blep))]
fn with_polyblep(s: &mut Sounder, waveform: u8, freq_hz: u32, duration_ms: u16)
    ensures { s.new ≡ with_poly_blep calls s.old waveform freq_hz duration_ms }
{
    if waveform > 3 {
        return;
    }
    s.play_polyblep(
        freq_hz,
        duration_ms,
        replay_fields::polyblep_waveform(waveform),
    );
}

// The requests one after another, then PolyBLEP on voice 0.
fn sounding(
    s: &mut Sounder,
    bytes: &[u8],
    requests: &[u8],
    waveform: u8,
    freq_hz: u32,
    duration_ms: u16,
)
    ensures { s.new ≡ sounded calls bytes.now requests.now waveform freq_hz duration_ms s.old }
{
    s.play_all(bytes, requests);
    with_polyblep(s, waveform, freq_hz, duration_ms);
}

fn panned(s: &mut Sounder, pans: &[u8])
    ensures { s.new ≡ panned_from calls 0 pans.now s.old }
{
    for (i, &pan) in pans.iter().enumerate() {
        s.set_voice_pan(i, pan);
    }
}

// A mono frame in each cell.
#[unsafe(no_mangle)]
pub extern "C" fn birchjack_pcm_i16(
    n: usize,
    free_only: bool,
    master_gain_q8: u8,
    bytes: &[u8],
    sample_rate_hz: u32,
    effect_count: u16,
    requests: &[u8],
    polyblep_waveform: u8,
    polyblep_hz: u32,
    polyblep_ms: u16,
    out: &mut [i16],
) -> u8
    ensures { Answers (cells_told calls to_i16 Once bytes.now (readied calls n (policy_of free_only) (settings sample_rate_hz 1000 M.Linear master_gain_q8) bytes.now effect_count) (sounded calls bytes.now requests.now polyblep_waveform polyblep_hz polyblep_ms) out.old) out.old result out.new }
{
    let config = exports_parts::settings(
        sample_rate_hz,
        DEFAULT_PWM_PERIOD,
        DutyMode::Linear,
        master_gain_q8,
    );
    match ready(n, free_only, config, bytes, effect_count) {
        Err(e) => u8::from(e),
        Ok(mut s) => {
            sounding(
                &mut s,
                bytes,
                requests,
                polyblep_waveform,
                polyblep_hz,
                polyblep_ms,
            );
            s.fill_pcm_i16_buffer(bytes, out);
            0
        }
    }
}

// A stereo frame in each pair of cells, with a pan for each voice from voice 0 on.
#[unsafe(no_mangle)]
pub extern "C" fn birchjack_stereo_i16(
    n: usize,
    free_only: bool,
    master_gain_q8: u8,
    bytes: &[u8],
    sample_rate_hz: u32,
    effect_count: u16,
    requests: &[u8],
    polyblep_waveform: u8,
    polyblep_hz: u32,
    polyblep_ms: u16,
    pans: &[u8],
    out: &mut [i16],
) -> u8
    ensures { Answers (cells_told calls to_i16 Sides bytes.now (readied calls n (policy_of free_only) (settings sample_rate_hz 1000 M.Linear master_gain_q8) bytes.now effect_count) (λ s. panned_from calls 0 pans.now (sounded calls bytes.now requests.now polyblep_waveform polyblep_hz polyblep_ms s)) out.old) out.old result out.new }
{
    let config = exports_parts::settings(
        sample_rate_hz,
        DEFAULT_PWM_PERIOD,
        DutyMode::Linear,
        master_gain_q8,
    );
    match ready(n, free_only, config, bytes, effect_count) {
        Err(e) => u8::from(e),
        Ok(mut s) => {
            sounding(
                &mut s,
                bytes,
                requests,
                polyblep_waveform,
                polyblep_hz,
                polyblep_ms,
            );
            panned(&mut s, pans);
            s.fill_stereo_panned_i16_buffer(bytes, out);
            0
        }
    }
}

// A compare value in each cell, in a period: linear, or shaped, of first or of second order.
#[unsafe(no_mangle)]
pub extern "C" fn birchjack_duty(
    n: usize,
    free_only: bool,
    master_gain_q8: u8,
    period: u16,
    shaped: bool,
    second_order: bool,
    bytes: &[u8],
    sample_rate_hz: u32,
    effect_count: u16,
    requests: &[u8],
    polyblep_waveform: u8,
    polyblep_hz: u32,
    polyblep_ms: u16,
    out: &mut [u16],
) -> u8
    ensures { Answers (levels_told calls Duty bytes.now (readied calls n (policy_of free_only) (settings sample_rate_hz period (mode_of shaped second_order) master_gain_q8) bytes.now effect_count) (sounded calls bytes.now requests.now polyblep_waveform polyblep_hz polyblep_ms) out.old) out.old result out.new }
{
    let mode = exports_parts::mode_of(shaped, second_order);
    let config = exports_parts::settings(sample_rate_hz, period, mode, master_gain_q8);
    match ready(n, free_only, config, bytes, effect_count) {
        Err(e) => u8::from(e),
        Ok(mut s) => {
            sounding(
                &mut s,
                bytes,
                requests,
                polyblep_waveform,
                polyblep_hz,
                polyblep_ms,
            );
            s.fill_duty_buffer(bytes, out);
            0
        }
    }
}
