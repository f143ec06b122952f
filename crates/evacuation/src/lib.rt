// The evacuation pattern: three pulses and a long pause, made sample by sample at a rate, and read back from a recording.
#![tactic(auto)]

ghost use Rattle.std.specs.Prelude.{◌≡◌, ◌<◌, get_or};
ghost use Rattle.evacuation.specs.Pattern.{phases, is_on, byte_of};
ghost use Rattle.evacuation.specs.Places.{next_phase};
ghost use Rattle.evacuation.specs.Opened.{opened_at, ValidRate};
ghost use Rattle.error.specs.Told.{Answered};

use error::AudioError;
use std::marker::Model;

mod recording;
mod signal;

// The pattern at a rate. The field is private, so that each one comes from `open`.
#[derive(Clone, Copy, Debug, PartialEq, Eq)]
pub struct Pattern {
    sample_rate_hz: u32,
}

impl Model for Pattern {
    ghost use Rattle.std.specs.Prelude.{ℕ};
    ghost use Rattle.evacuation.specs.Opened.{ValidRate};

    ghost Value = { ℕ };

    ghost view = { λ p. p.sample_rate_hz };

    ghost invariant = { λ p. ValidRate p.sample_rate_hz };

    ghost inverse = { λ rate. record { sample_rate_hz = rate } };
}

// A reader of recordings at a rate; private as the pattern's.
#[derive(Clone, Copy, Debug, PartialEq, Eq)]
pub struct Reader {
    sample_rate_hz: u32,
}

impl Model for Reader {
    ghost use Rattle.std.specs.Prelude.{ℕ};
    ghost use Rattle.evacuation.specs.Opened.{ValidRate};

    ghost Value = { ℕ };

    ghost view = { λ p. p.sample_rate_hz };

    ghost invariant = { λ p. ValidRate p.sample_rate_hz };

    ghost inverse = { λ rate. record { sample_rate_hz = rate } };
}

// Where in a cycle a sample stands: the phase, and how many of its samples are left, this one among them.
#[derive(Clone, Copy, Debug, PartialEq, Eq)]
pub(crate) struct Place {
    phase: usize,
    left: u32,
}

// The durations of the phases in milliseconds, on first.
const PHASES: [u16; 6] = [500, 500, 500, 500, 500, 1500];

// `phase < 6` stays a fact of these contracts: the definitions speak of a phase as a number, and an enum of six would be turned into it in each.
fn phase_ms(phase: usize) -> u16
    requires { phase < 6 }
    ensures { result ≡ get_or phases phase 0 }
{
    PHASES[phase]
}

// Whether a phase sounds: the first, and then every other one. A remainder would put a division into each sample.
fn is_on(phase: usize) -> bool
    requires { phase < 6 }
    ensures { result ≡ is_on phase }
{
    matches!(phase, 0 | 2 | 4)
}

// What a sample of a phase is written as.
fn phase_byte(phase: usize) -> u8
    requires { phase < 6 }
    ensures { result ≡ byte_of (is_on phase) }
{
    u8::from(is_on(phase))
}

// The phase after a phase; after the last, the first.
fn next_phase(phase: usize) -> usize
    requires { phase < 6 }
    ensures { result ≡ next_phase phase }
{
    if phase == 5 { 0 } else { phase + 1 }
}

// A rate at which pattern and reader open.
#[tactic(auto, using(std::proofs::lemmas::Bool::Decides::nat_tests), unfolding(crate::specs::Opened::opened_at))]
fn valid_rate(sample_rate_hz: u32) -> Result<u32, AudioError>
    ensures { Answered ValidRate (opened_at sample_rate_hz) result }
{
    if sample_rate_hz < 20 {
        return Err(AudioError::LowRate);
    }
    if sample_rate_hz > 65537 {
        return Err(AudioError::BadRate);
    }
    Ok(sample_rate_hz)
}

impl Pattern {
    pub fn open(sample_rate_hz: u32) -> Result<Pattern, AudioError>
        ensures { Answered ValidRate (opened_at sample_rate_hz) result }
    {
        let sample_rate_hz = valid_rate(sample_rate_hz)?;
        Ok(Pattern { sample_rate_hz })
    }
}

impl Reader {
    pub fn open(sample_rate_hz: u32) -> Result<Reader, AudioError>
        ensures { Answered ValidRate (opened_at sample_rate_hz) result }
    {
        let sample_rate_hz = valid_rate(sample_rate_hz)?;
        Ok(Reader { sample_rate_hz })
    }
}
