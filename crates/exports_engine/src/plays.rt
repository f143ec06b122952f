// Document 01's box for one call: it is opened, gets a bank, plays requests, and is asked for frames.
// Twins of `exports` and `exports_play`: one body for both boxes needs a trait of ten calls, each with a ghost member and a clause, and an impl for each box,
// which is as long as the twins.
ghost use Rattle.std.specs.Prelude.{◌≡◌};
ghost use Rattle.buffers.specs.Buffers.{to_i16};
ghost use Rattle.buffers.specs.declared.Level.TheVariants.{Duty};
ghost use Rattle.buffers.specs.declared.Shape.TheVariants.{Once, Sides};
ghost use Rattle.error.specs.Told.{told};
ghost use Rattle.output.specs.declared.DutyMode.TheVariants as M;
ghost use Rattle.exports_parts.specs.Told.{Answers};
ghost use Rattle.exports_parts.specs.Plays.{policy_of, mode_of, settings, readied, with_poly_blep, sounded, panned_from, cells_told, levels_told, play_told};
ghost use Rattle.exports_engine.specs.Plays.{calls};

use config::{AudioConfig, DEFAULT_PWM_PERIOD};
use engine::AudioEngine;
use error::AudioError;
use output::DutyMode;

// An engine with its bank, or what turned it down.
#[tactic(auto, unfolding(exports_parts::specs::Plays::readied))]
fn ready(
    n: usize,
    free_only: bool,
    config: AudioConfig,
    bytes: &[u8],
    effect_count: u16,
) -> Result<AudioEngine, AudioError>
    ensures { told result ≡ readied calls n (policy_of free_only) config bytes.now effect_count }
{
    let (mut e, opened) = AudioEngine::open(n, config, exports_parts::policy_of(free_only));
    opened?;
    e.set_bank(bytes, config.sample_rate_hz, effect_count)?;
    Ok(e)
}

// Above 3 none is started: C hands a number, and one `if` over it is as plain as an `Option` of a waveform.
#[tactic(auto, using(std::proofs::lemmas::Bool::Decides::nat_tests), unfolding(exports_parts::specs::Plays::with_poly_blep))]
fn with_polyblep(e: &mut AudioEngine, waveform: u8, freq_hz: u32, duration_ms: u16)
    ensures { e.new ≡ with_poly_blep calls e.old waveform freq_hz duration_ms }
{
    if waveform > 3 {
        return;
    }
    e.play_polyblep(
        freq_hz,
        duration_ms,
        replay_fields::polyblep_waveform(waveform),
    );
}

// The requests one after another, then PolyBLEP on voice 0.
fn sounding(
    e: &mut AudioEngine,
    bytes: &[u8],
    requests: &[u8],
    waveform: u8,
    freq_hz: u32,
    duration_ms: u16,
)
    ensures { e.new ≡ sounded calls bytes.now requests.now waveform freq_hz duration_ms e.old }
{
    e.play_all(bytes, requests);
    with_polyblep(e, waveform, freq_hz, duration_ms);
}

fn panned(e: &mut AudioEngine, pans: &[u8])
    ensures { e.new ≡ panned_from calls 0 pans.now e.old }
{
    for (i, &pan) in pans.iter().enumerate() {
        e.set_voice_pan(i, pan);
    }
}

// Plays the requests: each one's outcome, and how many voices are audible then.
#[unsafe(no_mangle)]
pub extern "C" fn birchjack_01_play(
    n: usize,
    free_only: bool,
    bytes: &[u8],
    sample_rate_hz: u32,
    effect_count: u16,
    requests: &[u8],
    outcomes: &mut [u16],
    audible: &mut usize,
) -> u8
    ensures { Answers (play_told calls (readied calls n (policy_of free_only) (settings sample_rate_hz 1000 M.Linear 255) bytes.now effect_count) bytes.now requests.now outcomes.old) (outcomes.old, audible.old) result (outcomes.new, audible.new) }
{
    let config = exports_parts::settings(sample_rate_hz, DEFAULT_PWM_PERIOD, DutyMode::Linear, 255);
    match ready(n, free_only, config, bytes, effect_count) {
        Err(e) => u8::from(e),
        Ok(mut e) => {
            e.play_each(bytes, requests, outcomes);
            *audible = e.active_voice_count();
            0
        }
    }
}

// A mono frame in each cell.
#[unsafe(no_mangle)]
pub extern "C" fn birchjack_01_pcm_i16(
    n: usize,
    free_only: bool,
    master_gain_q8: u8,
    bytes: &[u8],
    sample_rate_hz: u32,
    effect_count: u16,
    requests: &[u8],
    polyblep_waveform: u8,
    polyblep_hz: u32,
    polyblep_ms: u16,
    out: &mut [i16],
) -> u8
    ensures { Answers (cells_told calls to_i16 Once bytes.now (readied calls n (policy_of free_only) (settings sample_rate_hz 1000 M.Linear master_gain_q8) bytes.now effect_count) (sounded calls bytes.now requests.now polyblep_waveform polyblep_hz polyblep_ms) out.old) out.old result out.new }
{
    let config = exports_parts::settings(
        sample_rate_hz,
        DEFAULT_PWM_PERIOD,
        DutyMode::Linear,
        master_gain_q8,
    );
    match ready(n, free_only, config, bytes, effect_count) {
        Err(e) => u8::from(e),
        Ok(mut e) => {
            sounding(
                &mut e,
                bytes,
                requests,
                polyblep_waveform,
                polyblep_hz,
                polyblep_ms,
            );
            e.fill_pcm_i16_buffer(out);
            0
        }
    }
}

// A stereo frame in each pair of cells, with a pan for each voice from voice 0 on.
#[unsafe(no_mangle)]
pub extern "C" fn birchjack_01_stereo_i16(
    n: usize,
    free_only: bool,
    master_gain_q8: u8,
    bytes: &[u8],
    sample_rate_hz: u32,
    effect_count: u16,
    requests: &[u8],
    polyblep_waveform: u8,
    polyblep_hz: u32,
    polyblep_ms: u16,
    pans: &[u8],
    out: &mut [i16],
) -> u8
    ensures { Answers (cells_told calls to_i16 Sides bytes.now (readied calls n (policy_of free_only) (settings sample_rate_hz 1000 M.Linear master_gain_q8) bytes.now effect_count) (λ s. panned_from calls 0 pans.now (sounded calls bytes.now requests.now polyblep_waveform polyblep_hz polyblep_ms s)) out.old) out.old result out.new }
{
    let config = exports_parts::settings(
        sample_rate_hz,
        DEFAULT_PWM_PERIOD,
        DutyMode::Linear,
        master_gain_q8,
    );
    match ready(n, free_only, config, bytes, effect_count) {
        Err(e) => u8::from(e),
        Ok(mut e) => {
            sounding(
                &mut e,
                bytes,
                requests,
                polyblep_waveform,
                polyblep_hz,
                polyblep_ms,
            );
            panned(&mut e, pans);
            e.fill_stereo_panned_i16_buffer(out);
            0
        }
    }
}

// A compare value in each cell, in a period: linear, or shaped, of first or of second order.
#[unsafe(no_mangle)]
pub extern "C" fn birchjack_01_duty(
    n: usize,
    free_only: bool,
    master_gain_q8: u8,
    period: u16,
    shaped: bool,
    second_order: bool,
    bytes: &[u8],
    sample_rate_hz: u32,
    effect_count: u16,
    requests: &[u8],
    polyblep_waveform: u8,
    polyblep_hz: u32,
    polyblep_ms: u16,
    out: &mut [u16],
) -> u8
    ensures { Answers (levels_told calls Duty bytes.now (readied calls n (policy_of free_only) (settings sample_rate_hz period (mode_of shaped second_order) master_gain_q8) bytes.now effect_count) (sounded calls bytes.now requests.now polyblep_waveform polyblep_hz polyblep_ms) out.old) out.old result out.new }
{
    let mode = exports_parts::mode_of(shaped, second_order);
    let config = exports_parts::settings(sample_rate_hz, period, mode, master_gain_q8);
    match ready(n, free_only, config, bytes, effect_count) {
        Err(e) => u8::from(e),
        Ok(mut e) => {
            sounding(
                &mut e,
                bytes,
                requests,
                polyblep_waveform,
                polyblep_hz,
                polyblep_ms,
            );
            e.fill_duty_buffer(out);
            0
        }
    }
}
