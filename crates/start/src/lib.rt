// Starting a voice: by a bank's entry, or by a tone. A start gives a voice; to store it is its caller's.
#![tactic(auto)]

ghost use Rattle.std.specs.Prelude.{◌≡◌, ◌≤◌};
ghost use Rattle.laws.specs.Made.{Made};
ghost use Rattle.error.specs.Told.{Answered};
ghost use Rattle.bank.specs.Banks.{ValidBank};
ghost use Rattle.envelope.specs.Adsrs.{click_spec};
ghost use Rattle.voice.specs.Sources.{ValidSource};
ghost use Rattle.voice.specs.Voices.{Valid};
ghost use Rattle.start.specs.Starts.{started_voice, start_at, entry_start_under, request_start_under, at_rate, tone_voice, poly_blep_voice};

use bank::{EffectEntry, SoundBank};
use envelope::AdsrSpec;
use error::AudioError;
use polyblep::PolyBlepWaveform;
use tone::Waveform;
use voice::{Voice, VoiceSource};

// A play request.
#[derive(Clone, Copy, Debug, PartialEq, Eq)]
pub struct Request {
    pub id: u16,
    pub adsr: AdsrSpec,
    pub priority: u8,
}

// A silent voice with its own gain, priority and source, its envelope triggered.
fn started_voice(rate: u32, gain_q8: u8, priority: u8, source: VoiceSource, adsr: AdsrSpec) -> Voice
    requires rate_bound { rate ≤ 65537 }
    requires valid_source { ValidSource source }
    ensures { Made Valid (started_voice rate gain_q8 priority source adsr) result }
{
    let silent = Voice::silent(rate);
    let voice = Voice {
        source,
        gain_q8,
        priority,
        ..silent
    };
    voice.trigger_adsr(adsr)
}

// An entry whose payload is whole.
#[tactic(auto, using(error::proofs::Told::answered), unfolding(crate::specs::Starts::start_at))]
fn start_at(
    rate: u32,
    entry: EffectEntry,
    adsr: AdsrSpec,
    priority: u8,
) -> Result<Voice, AudioError>
    requires { rate ≤ 65537 }
    ensures { Answered Valid (start_at rate entry adsr priority) result }
{
    let source = VoiceSource::start_from_entry(entry.kind, entry.param0, entry.param1, rate)?;
    Ok(started_voice(rate, entry.default_gain_q8, priority, source, adsr))
}

// `parted` here and below is the rule of `bank::payload_number`, handed on as it is.
#[tactic(auto, using(error::proofs::Told::answered), unfolding(crate::specs::Starts::entry_start_under))]
pub fn start_entry(
    bank: Option<SoundBank>,
    bytes: &[u8],
    entry: EffectEntry,
    adsr: AdsrSpec,
    priority: u8,
    parted: bool,
) -> Result<Voice, AudioError>
    requires { ValidBank bank }
    ensures { Answered Valid (entry_start_under parted bank bytes.now entry adsr priority) result }
{
    let b = bank.ok_or(AudioError::NoBank)?;
    bank::payload_number(bank, bytes, entry.offset, entry.len, parted)?;
    start_at(b.sample_rate_hz(), entry, adsr, priority)
}

// All that turns a play request down, but for a voice to put it in.
#[tactic(auto, using(error::proofs::Told::answered), unfolding(crate::specs::Starts::request_start_under))]
pub fn start_request(
    bank: Option<SoundBank>,
    bytes: &[u8],
    request: Request,
    parted: bool,
) -> Result<Voice, AudioError>
    requires { ValidBank bank }
    ensures { Answered Valid (request_start_under parted bank bytes.now request) result }
{
    let entry = bank::find_by_id(bank, bytes, request.id)?;
    start_entry(bank, bytes, entry, request.adsr, request.priority, parted)
}

// A start that no entry asks for: the silent voice's gain and priority, and a click.
#[tactic(auto, using(error::proofs::Told::answered), unfolding(crate::specs::Starts::at_rate))]
fn start_alone(source: VoiceSource, rate: u32) -> Result<Voice, AudioError>
    requires { ValidSource source }
    ensures { Answered Valid (at_rate rate (started_voice rate 255 0 source click_spec)) result }
{
    if rate > 65537 {
        return Err(AudioError::BadRate);
    }
    Ok(started_voice(rate, 255, 0, source, AdsrSpec::click()))
}

#[tactic(auto, unfolding(crate::specs::Starts::tone_voice))]
pub fn tone_voice(
    freq_hz: u32,
    duration_ms: u16,
    waveform: Waveform,
    rate: u32,
) -> Result<Voice, AudioError>
    ensures { Answered Valid (at_rate rate (tone_voice freq_hz duration_ms waveform rate)) result }
{
    start_alone(
        VoiceSource::start_tone(freq_hz, duration_ms, waveform, rate),
        rate,
    )
}

#[tactic(auto, unfolding(crate::specs::Starts::poly_blep_voice))]
pub fn polyblep_voice(
    freq_hz: u32,
    duration_ms: u16,
    waveform: PolyBlepWaveform,
    rate: u32,
) -> Result<Voice, AudioError>
    ensures { Answered Valid (at_rate rate (poly_blep_voice freq_hz duration_ms waveform rate)) result }
{
    start_alone(
        VoiceSource::start_polyblep(freq_hz, duration_ms, waveform, rate),
        rate,
    )
}
