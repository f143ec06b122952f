// An engine's state as a dump prints it.
#![tactic(auto)]

ghost use Rattle.std.specs.Prelude.{◌≡◌, ◌+◌, ◌*◌, ◌≤◌};
ghost use Rattle.mixer.specs.Mixers.{Valid, voices_of};
ghost use Rattle.hex_digits.specs.Hex.{Laid, Wrote};
ghost use Rattle.replay_dump.specs.Dumps.{policy_number, mode_number, bank_count, bank_length, bank_rate, setting_fields, running_fields, voice_lines, dump_text};

use bank::SoundBank;
use hex_digits::{end_line, put_four};
use mixer::{Mixer, VoiceStealingPolicy};
use output::DutyMode;
use replay_fields::{flag_number, put_voice};

const NOTHING: u64 = 0xffff_ffff_ffff_ffff;

// The fields of a bank.
#[derive(Clone, Copy, Debug, PartialEq, Eq)]
struct BankFields {
    count: u64,
    len: u64,
    rate: u64,
}

pub fn policy_number(p: VoiceStealingPolicy) -> u64
    ensures { result ≡ policy_number p }
{
    p as u64
}

pub fn mode_number(m: DutyMode) -> u64
    ensures { result ≡ mode_number m }
{
    m as u64
}

fn bank_fields(bank: Option<SoundBank>) -> BankFields
    ensures { (result.count ≡ bank_count bank) × (result.len ≡ bank_length bank) × (result.rate ≡ bank_rate bank) }
{
    match bank {
        None => BankFields {
            count: NOTHING,
            len: NOTHING,
            rate: NOTHING,
        },
        Some(b) => BankFields {
            count: b.effect_count() as u64,
            len: b.len() as u64,
            rate: b.sample_rate_hz() as u64,
        },
    }
}

// Here and below a buffer and a place in it, as `hex_digits::put` has them: there is no heap for a Vec.
// N, policy, bank, rate, period, duty mode.
fn put_settings(out: &mut [u8; 262144], m: Mixer) -> usize
    ensures { Laid out.old 0 (setting_fields m) out.new result × (result ≤ 128) }
{
    let bank = bank_fields(m.bank);
    let config = m.config;
    let n = put_four(
        out,
        0,
        m.n as u64,
        policy_number(m.stealing_policy),
        bank.count,
        bank.len,
    );
    put_four(
        out,
        n,
        bank.rate,
        config.sample_rate_hz as u64,
        config.pwm_period as u64,
        mode_number(config.duty_mode),
    )
}

// Master gain, mapper, fade.
fn put_running(out: &mut [u8; 262144], at: usize, m: Mixer) -> usize
    ensures { Laid out.old at (running_fields m) out.new result × (result ≤ at + 128) }
{
    let mapper = m.mapper;
    let second = mapper.sigma_delta_2nd;
    let sum = i64::from(mapper.sigma_delta.integrator).cast_unsigned();
    let e1 = i64::from(second.e1()).cast_unsigned();
    let e2 = i64::from(second.e2()).cast_unsigned();
    let n = put_four(
        out,
        at,
        m.config.master_gain_q8 as u64,
        mode_number(mapper.mode),
        sum,
        e1,
    );
    put_four(
        out,
        n,
        e2,
        m.crossfade_t_q8 as u64,
        m.crossfade_step_q8 as u64,
        flag_number(m.crossfade_active),
    )
}

fn put_voices(out: &mut [u8; 262144], at: usize, m: Mixer) -> usize
    requires { Valid m }
    ensures { Laid out.old at (voice_lines (voices_of m)) out.new result × (result ≤ at + 337 * 16) }
{
    let mut next = at;
    let voices = &m.voices[..m.n];
    for v in voices {
        let end = put_voice(out, next, *v);
        next = end_line(out, end);
    }
    next
}

// From the front of the buffer on. It gives the text's length.
pub fn put_dump(out: &mut [u8; 262144], m: Mixer) -> usize
    requires { Valid m }
    ensures { Wrote out.old 0 (dump_text m) out.new result }
{
    let settings = put_settings(out, m);
    let running = put_running(out, settings, m);
    let end = end_line(out, running);
    put_voices(out, end, m)
}
