// The fields that records share: an envelope's times, duty modes and waveforms as a line has them, and a state's fields, 16 digits
// each.
#![tactic(auto)]

ghost use Rattle.std.specs.Prelude.{◌≡◌, not, ◌+◌, ◌≤◌, T};
ghost use Rattle.std.specs.Float.{binary32};
ghost use Rattle.std.specs.Float.Ieee.{to_bits, is_nan};
ghost use Rattle.polyblep.specs.Oscillators.{ValidVoice};
ghost use Rattle.voice.specs.Sources.{ValidSource};
ghost use Rattle.voice.specs.Voices.{Valid};
ghost use Rattle.hex_digits.specs.Hex.{Laid};
ghost use Rattle.replay_fields.specs.Read.{spec_at, mode_of, tone_waveform, poly_blep_waveform};
ghost use Rattle.replay_fields.specs.States.{flag_number, tone_number, poly_blep_number, phase_number, tone_fields, poly_blep_fields, fm_fields, source_fields, adsr_text, voice_fields};

use envelope::{Adsr, AdsrPhase, AdsrSpec};
use fm::FmVoice;
use hex_digits::{byte_at, put, put_four, wide_at};
use output::DutyMode;
use polyblep::{PolyBlepVoice, PolyBlepWaveform};
use tone::{ToneVoice, Waveform};
use voice::{Voice, VoiceSource};

// An envelope's times, from byte k on.
pub fn spec_at(l: &[u8], k: u16) -> AdsrSpec
    ensures { result ≡ spec_at l.now k }
{
    let at = usize::from(k);
    AdsrSpec {
        attack_ms: wide_at(l, at),
        decay_ms: wide_at(l, at + 2),
        sustain_q8: byte_at(l, at + 4),
        release_ms: wide_at(l, at + 5),
    }
}

// Total, as the records are read: a number above the last is the last one. So no `TryFrom`, which would refuse it.
#[tactic(auto, using(std::proofs::lemmas::Bool::Decides::nat_tests))]
pub fn mode_of(n: u8) -> DutyMode
    ensures { result ≡ mode_of n }
{
    match n {
        0 => DutyMode::Linear,
        1 => DutyMode::SigmaDelta,
        _ => DutyMode::SigmaDelta2ndOrder,
    }
}

#[tactic(auto, using(std::proofs::lemmas::Bool::Decides::nat_tests))]
pub fn tone_waveform(n: u8) -> Waveform
    ensures { result ≡ tone_waveform n }
{
    match n {
        0 => Waveform::Square,
        1 => Waveform::Sine,
        _ => Waveform::Triangle,
    }
}

#[tactic(auto, using(std::proofs::lemmas::Bool::Decides::nat_tests))]
pub fn polyblep_waveform(n: u8) -> PolyBlepWaveform
    ensures { result ≡ poly_blep_waveform n }
{
    match n {
        0 => PolyBlepWaveform::Sine,
        1 => PolyBlepWaveform::Sawtooth,
        2 => PolyBlepWaveform::Square,
        _ => PolyBlepWaveform::Triangle,
    }
}

pub fn flag_number(b: bool) -> u64
    ensures { result ≡ flag_number b }
{
    u64::from(b)
}

fn tone_number(w: Waveform) -> u64
    ensures { result ≡ tone_number w }
{
    w as u64
}

fn polyblep_number(w: PolyBlepWaveform) -> u64
    ensures { result ≡ poly_blep_number w }
{
    w as u64
}

fn phase_number(p: AdsrPhase) -> u64
    ensures { result ≡ phase_number p }
{
    p as u64
}

fn bits_of(x: f32) -> u64
    requires { T (not (is_nan x)) }
    ensures { result ≡ to_bits binary32 x }
{
    u64::from(x.to_bits())
}

// Here and below a buffer and a place in it, as `hex_digits::put` has them: there is no heap for a Vec.
fn put_tone(out: &mut [u8; 262144], at: usize, v: ToneVoice) -> usize
    ensures { Laid out.old at (tone_fields v) out.new result × (result ≤ at + 96) }
{
    let n4 = put_four(
        out,
        at,
        1,
        v.phase as u64,
        v.phase_inc as u64,
        tone_number(v.waveform),
    );
    let n5 = put(out, n4, v.samples_left as u64, 16);
    put(out, n5, flag_number(v.active), 16)
}

fn put_polyblep(out: &mut [u8; 262144], at: usize, v: PolyBlepVoice) -> usize
    requires { ValidVoice v }
    ensures { Laid out.old at (poly_blep_fields v) out.new result × (result ≤ at + 128) }
{
    let osc = v.oscillator();
    let phase = bits_of(osc.phase());
    let step = bits_of(osc.phase_inc());
    let waveform = polyblep_number(osc.waveform());
    let hz = osc.frequency() as u64;
    let rate = osc.sample_rate_hz() as u64;
    let left = v.samples_left() as u64;
    let active = flag_number(v.is_active());
    let n4 = put_four(out, at, 2, phase, step, waveform);
    put_four(out, n4, hz, rate, left, active)
}

fn put_fm(out: &mut [u8; 262144], at: usize, v: FmVoice) -> usize
    ensures { Laid out.old at (fm_fields v) out.new result × (result ≤ at + 112) }
{
    let n4 = put_four(
        out,
        at,
        3,
        v.carrier_phase as u64,
        v.carrier_inc as u64,
        v.mod_phase as u64,
    );
    let n5 = put(out, n4, v.mod_inc as u64, 16);
    let n6 = put(out, n5, v.mod_depth_q8 as u64, 16);
    put(out, n6, flag_number(v.active), 16)
}

pub fn put_source(out: &mut [u8; 262144], at: usize, s: VoiceSource) -> usize
    requires { ValidSource s }
    ensures { Laid out.old at (source_fields s) out.new result × (result ≤ at + 128) }
{
    match s {
        VoiceSource::Idle => put(out, at, 0, 16),
        VoiceSource::Tone(v) => put_tone(out, at, v),
        VoiceSource::PolyBlep(v) => put_polyblep(out, at, v),
        VoiceSource::Fm(v) => put_fm(out, at, v),
    }
}

pub fn put_adsr(out: &mut [u8; 262144], at: usize, a: Adsr) -> usize
    ensures { Laid out.old at (adsr_text a) out.new result × (result ≤ at + 144) }
{
    let times = put_four(
        out,
        at,
        a.spec.attack_ms as u64,
        a.spec.decay_ms as u64,
        a.spec.sustain_q8 as u64,
        a.spec.release_ms as u64,
    );
    let state = put_four(
        out,
        times,
        phase_number(a.phase),
        a.level_q8 as u64,
        a.samples_in_phase as u64,
        a.phase_length_samples as u64,
    );
    put(out, state, a.sample_rate_hz as u64, 16)
}

pub fn put_voice(out: &mut [u8; 262144], at: usize, v: Voice) -> usize
    requires { Valid v }
    ensures { Laid out.old at (voice_fields v) out.new result × (result ≤ at + 336) }
{
    let n1 = put_source(out, at, v.source);
    let n2 = put_adsr(out, n1, v.adsr);
    let gain = v.gain_q8 as u64;
    let priority = v.priority as u64;
    let pan = v.pan_q8 as u64;
    put_four(out, n2, gain, priority, pan, v.sample_rate_hz as u64)
}
