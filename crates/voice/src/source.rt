// What one voice sounds: a choice of idle, tone, PolyBLEP or FM.
ghost use Rattle.std.specs.Prelude.{◌≡◌};
ghost use Rattle.laws.specs.Made.{Made};
ghost use Rattle.error.specs.Told.{Answered};
ghost use Rattle.voice.specs.Sources.{ValidSource, ValidStep, active_source, carrier_of, carrier_given, stepped_source, tone_source, poly_blep_source, fm_source, started_entry};

use envelope::AdsrSpec;
use error::AudioError;
use fixed::Step;
use fm::FmVoice;
use polyblep::{PolyBlepVoice, PolyBlepWaveform};
use tier::EffectKind;
use tone::{ToneParams, ToneVoice, Waveform};

#[derive(Clone, Copy, Debug, PartialEq)]
pub enum VoiceSource {
    Idle,
    Tone(ToneVoice),
    PolyBlep(PolyBlepVoice),
    Fm(FmVoice),
}

#[tactic(auto, unfolding(crate::specs::Sources::carrier_of))]
fn carrier_of(hz: u32) -> Option<u32>
    ensures { result ≡ carrier_of hz }
{
    if hz == 0 { None } else { Some(hz) }
}

impl VoiceSource {
    #[tactic(auto, unfolding(crate::specs::Sources::active_source))]
    pub fn is_active(self) -> bool
        ensures { result ≡ active_source self }
    {
        match self {
            VoiceSource::Idle => false,
            VoiceSource::Tone(v) => v.is_active(),
            VoiceSource::PolyBlep(v) => v.is_active(),
            VoiceSource::Fm(v) => v.is_active(),
        }
    }

    // The Hz of a source that has a carrier.
    #[tactic(auto, unfolding(crate::specs::Sources::carrier_given))]
    pub fn carrier_hz(self, sample_rate_hz: u32) -> Option<u32>
        ensures { result ≡ carrier_given self sample_rate_hz }
    {
        match self {
            VoiceSource::Tone(v) => carrier_of(v.carrier_hz(sample_rate_hz)),
            VoiceSource::PolyBlep(v) => carrier_of(v.carrier_hz()),
            VoiceSource::Idle | VoiceSource::Fm(_) => None,
        }
    }

    #[tactic(auto, using(crate::proofs::Laws::keeps_valid), unfolding(crate::specs::Sources::stepped_source))]
    pub fn next_raw_sample(self) -> Step<VoiceSource, Option<i8>>
        requires { ValidSource self }
        ensures { Made ValidStep (stepped_source self) result }
    {
        match self {
            VoiceSource::Idle => Step {
                voice: self,
                given: None,
            },
            VoiceSource::Tone(v) => {
                let s = v.next_sample();
                Step {
                    voice: VoiceSource::Tone(s.voice),
                    given: s.given,
                }
            }
            VoiceSource::PolyBlep(v) => {
                let s = v.next_sample();
                Step {
                    voice: VoiceSource::PolyBlep(s.voice),
                    given: s.given,
                }
            }
            VoiceSource::Fm(v) => {
                let s = v.next_sample();
                Step {
                    voice: VoiceSource::Fm(s.voice),
                    given: s.given,
                }
            }
        }
    }

    pub fn start_polyblep(
        freq_hz: u32,
        duration_ms: u16,
        waveform: PolyBlepWaveform,
        sample_rate_hz: u32,
    ) -> VoiceSource
        ensures { Made ValidSource (poly_blep_source freq_hz duration_ms waveform sample_rate_hz) result }
    {
        VoiceSource::PolyBlep(PolyBlepVoice::start(freq_hz, duration_ms, waveform, sample_rate_hz))
    }

    pub fn start_tone(
        freq_hz: u32,
        duration_ms: u16,
        waveform: Waveform,
        sample_rate_hz: u32,
    ) -> VoiceSource
        ensures { Made ValidSource (tone_source freq_hz duration_ms waveform sample_rate_hz) result }
    {
        let params = ToneParams {
            freq_hz,
            duration_ms,
            waveform,
            adsr: AdsrSpec::click(),
        };
        VoiceSource::Tone(ToneVoice::start(params, sample_rate_hz))
    }

    pub fn start_fm(carrier_hz: u32, mod_ratio_cent: u16, sample_rate_hz: u32) -> VoiceSource
        ensures { Made ValidSource (fm_source carrier_hz mod_ratio_cent sample_rate_hz) result }
    {
        VoiceSource::Fm(FmVoice::start(carrier_hz, mod_ratio_cent, 72, sample_rate_hz))
    }

    // A stored-sample kind is not carried over. The entry's flags and payload serve those kinds alone.
    #[tactic(auto, unfolding(crate::specs::Sources::started_entry))]
    pub fn start_from_entry(
        kind: EffectKind,
        param0: u16,
        param1: u16,
        sample_rate_hz: u32,
    ) -> Result<VoiceSource, AudioError>
        ensures { Answered ValidSource (started_entry kind param0 param1 sample_rate_hz) result }
    {
        let param0 = u32::from(param0);
        match kind {
            EffectKind::Tone => Ok(VoiceSource::start_tone(
                param0,
                param1,
                Waveform::Sine,
                sample_rate_hz,
            )),
            EffectKind::Fm => Ok(VoiceSource::start_fm(param0, param1, sample_rate_hz)),
            EffectKind::Wavetable
            | EffectKind::Pcm8
            | EffectKind::Adpcm
            | EffectKind::SigmaDeltaBits => Err(AudioError::NotCarried),
        }
    }
}
