// The ADSR envelope in Q8: a part of every voice, and an envelope that is opened alone.
#![tactic(auto)]

ghost use Rattle.std.specs.Prelude.{◌≡◌, ◌<◌, ◌≤◌, ◌*◌, ◌/◌};
ghost use Rattle.laws.specs.Made.{Made};
ghost use Rattle.error.specs.Told.{Answered};
ghost use Rattle.laws.specs.Durations.{samples_of};
ghost use Rattle.envelope.specs.Adsrs.{Valid, click_spec, default_spec, pad_spec, idle_adsr, triggered, released, ticked, began_decay, sustained, ended, advanced_toward, next_level, active};
ghost use Rattle.envelope.specs.Alone.{opened};

use error::AudioError;
use std::marker::Model;

mod blocks;

// Durations in milliseconds; 0 skips the phase.
#[derive(Clone, Copy, Debug, PartialEq, Eq)]
pub struct AdsrSpec {
    pub attack_ms: u16,
    pub decay_ms: u16,
    pub sustain_q8: u8,
    pub release_ms: u16,
}

// Two presets, by the source's names: one function over a table would need a name for each again.
impl AdsrSpec {
    pub fn click() -> AdsrSpec
        ensures { result ≡ click_spec }
    {
        AdsrSpec {
            attack_ms: 2,
            decay_ms: 40,
            sustain_q8: 0, // it rests at level 0
            release_ms: 10,
        }
    }

    pub fn pad() -> AdsrSpec
        ensures { result ≡ pad_spec }
    {
        AdsrSpec {
            attack_ms: 5,
            decay_ms: 80,
            sustain_q8: 200,
            release_ms: 120,
        }
    }
}

// No phase lasts. By hand: a derived `default` says nothing of its value.
impl Default for AdsrSpec {
    ghost is_default = { λ spec. spec ≡ default_spec };

    fn default() -> AdsrSpec {
        AdsrSpec {
            attack_ms: 0,
            decay_ms: 0,
            sustain_q8: 0,
            release_ms: 0,
        }
    }
}

#[derive(Clone, Copy, Debug, PartialEq, Eq)]
pub enum AdsrPhase {
    Attack,
    Decay,
    Sustain,
    Release,
    Idle,
}

// Where an envelope stands: phase, level 0..255, and the count within the phase.
#[derive(Clone, Copy, Debug, PartialEq, Eq)]
pub struct Adsr {
    pub spec: AdsrSpec,
    pub phase: AdsrPhase,
    pub level_q8: u8,
    pub samples_in_phase: u32,
    pub phase_length_samples: u32,
    pub sample_rate_hz: u32,
}

// At a rate of at most 65,537 the product of 32 bits does not wrap.
fn ms_to_samples(ms: u16, sample_rate_hz: u32) -> u32
    requires { sample_rate_hz ≤ 65537 }
    ensures { result ≡ samples_of ms sample_rate_hz }
{
    u32::from(ms) * sample_rate_hz / 1000
}

// Most steps are of no level at all, and those need no division. The product of any length has room in 64 bits.
fn part(distance: u8, count: u32, length: u32) -> u8
    requires { (0 < length) × (count ≤ length) }
    ensures { result ≡ distance * count / length }
{
    let product = u64::from(distance) * u64::from(count);
    if product < u64::from(length) {
        0
    } else {
        (product / u64::from(length)) as u8
    }
}

// The source's `min` and `clamp` never act here: the level goes from where it is towards the target and not past it.
fn next_level(level: u8, target: u8, count: u32, length: u32) -> u8
    requires { (0 < length) × (count ≤ length) }
    ensures { result ≡ next_level level target count length }
{
    if level < target {
        level + part(target - level, count, length)
    } else {
        level - part(level - target, count, length)
    }
}

// `Valid self` stays a fact of these contracts: voices hold an Adsr and go by value, and a Copy struct that holds a struct with a model is not
// copied in a proof (tried with the PolyBLEP oscillator: the proof did not close). `Envelope` below, which is held by none, has the model.
impl Adsr {
    pub fn new(spec: AdsrSpec, sample_rate_hz: u32) -> Adsr
        ensures { result ≡ idle_adsr spec sample_rate_hz }
    {
        Adsr {
            spec,
            phase: AdsrPhase::Idle,
            level_q8: 0,
            samples_in_phase: 0,
            phase_length_samples: 0,
            sample_rate_hz,
        }
    }

    pub fn sample_rate_hz(self) -> u32
        ensures { result ≡ self.sample_rate_hz }
    {
        self.sample_rate_hz
    }

    pub fn level_q8(self) -> u8
        ensures { result ≡ self.level_q8 }
    {
        self.level_q8
    }

    #[tactic(auto, using(crate::proofs::Laws::active_unless_idle), unfolding(crate::specs::Adsrs::active))]
    pub fn is_active(self) -> bool
        ensures { result ≡ active self }
    {
        !matches!(self.phase, AdsrPhase::Idle)
    }

    pub fn trigger(self) -> Adsr
        requires { Valid self }
        ensures { Made Valid (triggered self) result }
    {
        let length = ms_to_samples(self.spec.attack_ms, self.sample_rate_hz);
        let a = Adsr {
            phase: AdsrPhase::Attack,
            level_q8: 0,
            samples_in_phase: 0,
            phase_length_samples: length,
            ..self
        };
        if length == 0 { a.begin_decay() } else { a }
    }

    pub fn release(self) -> Adsr
        requires { Valid self }
        ensures { Made Valid (released self) result }
    {
        if self.is_active() {
            let length = ms_to_samples(self.spec.release_ms, self.sample_rate_hz);
            if length == 0 {
                Adsr {
                    phase: AdsrPhase::Idle,
                    level_q8: 0,
                    samples_in_phase: 0,
                    phase_length_samples: 0,
                    ..self
                }
            } else {
                Adsr {
                    phase: AdsrPhase::Release,
                    samples_in_phase: 0,
                    phase_length_samples: length,
                    ..self
                }
            }
        } else {
            self
        }
    }

    pub fn tick(self) -> Adsr
        requires { Valid self }
        ensures { Made Valid (ticked self) result }
    {
        match self.phase {
            AdsrPhase::Attack => {
                let a = self.advance_toward(255);
                if a.samples_in_phase >= a.phase_length_samples {
                    a.begin_decay()
                } else {
                    a
                }
            }
            AdsrPhase::Decay => {
                let a = self.advance_toward(self.spec.sustain_q8);
                if a.samples_in_phase >= a.phase_length_samples {
                    a.end_decay()
                } else {
                    a
                }
            }
            AdsrPhase::Release => {
                let a = self.advance_toward(0);
                if a.samples_in_phase >= a.phase_length_samples {
                    a.end_release()
                } else {
                    a
                }
            }
            AdsrPhase::Sustain | AdsrPhase::Idle => self,
        }
    }

    #[tactic(auto, using(std::proofs::lemmas::Bool::Decides::nat_tests), unfolding(crate::specs::Adsrs::began_decay))]
    fn begin_decay(self) -> Adsr
        requires { self.sample_rate_hz ≤ 65537 }
        ensures { result ≡ began_decay self }
    {
        let length = ms_to_samples(self.spec.decay_ms, self.sample_rate_hz);
        if length == 0 {
            Adsr {
                phase: AdsrPhase::Sustain,
                level_q8: self.spec.sustain_q8,
                samples_in_phase: 0,
                phase_length_samples: 0,
                ..self
            }
        } else {
            Adsr {
                phase: AdsrPhase::Decay,
                samples_in_phase: 0,
                phase_length_samples: length,
                ..self
            }
        }
    }

    fn end_decay(self) -> Adsr
        ensures { result ≡ sustained self }
    {
        Adsr {
            phase: AdsrPhase::Sustain,
            level_q8: self.spec.sustain_q8,
            samples_in_phase: 0,
            ..self
        }
    }

    fn end_release(self) -> Adsr
        ensures { result ≡ ended self }
    {
        Adsr {
            phase: AdsrPhase::Idle,
            level_q8: 0,
            ..self
        }
    }

    #[tactic(auto, unfolding(crate::specs::Adsrs::advanced_toward))]
    fn advance_toward(self, target: u8) -> Adsr
        requires { self.samples_in_phase < self.phase_length_samples }
        ensures { result ≡ advanced_toward target self }
    {
        let count = self.samples_in_phase + 1;
        let level = next_level(self.level_q8, target, count, self.phase_length_samples);
        Adsr {
            level_q8: level,
            samples_in_phase: count,
            ..self
        }
    }
}

// An envelope that is opened alone. Its field is private, so that each one comes from the calls below.
#[derive(Clone, Copy, Debug, PartialEq, Eq)]
pub struct Envelope {
    adsr: Adsr,
}

impl Model for Envelope {
    ghost use Rattle.envelope.specs.declared.Adsr.{Adsr};
    ghost use Rattle.envelope.specs.Adsrs.{Valid};

    ghost Value = { Adsr };

    ghost view = { λ e. e.adsr };

    ghost invariant = { λ e. Valid e.adsr };

    ghost inverse = { λ a. record { adsr = a } };
}

impl Envelope {
    pub fn open(spec: AdsrSpec, sample_rate_hz: u32) -> Result<Envelope, AudioError>
        ensures { Answered Valid (opened spec sample_rate_hz) result }
    {
        if sample_rate_hz > 65537 {
            return Err(AudioError::BadRate);
        }
        Ok(Envelope {
            adsr: Adsr::new(spec, sample_rate_hz),
        })
    }

    pub fn trigger(self) -> Envelope
        ensures { result ≡ triggered self }
    {
        Envelope {
            adsr: self.adsr.trigger(),
        }
    }

    pub fn release(self) -> Envelope
        ensures { result ≡ released self }
    {
        Envelope {
            adsr: self.adsr.release(),
        }
    }

    pub fn tick(self) -> Envelope
        ensures { result ≡ ticked self }
    {
        Envelope {
            adsr: self.adsr.tick(),
        }
    }

    pub fn level(self) -> u8
        ensures { result ≡ self.level_q8 }
    {
        self.adsr.level_q8
    }

    pub fn active(self) -> bool
        ensures { result ≡ active self }
    {
        self.adsr.is_active()
    }

    // The state, to be looked at.
    pub fn state(self) -> Adsr
        ensures { Made Valid self result }
    {
        self.adsr
    }
}

// The tick on an envelope that is lent for change.
pub fn tick_in_place(e: &mut Envelope)
    ensures { e.new ≡ ticked e.old }
{
    *e = e.tick();
}
