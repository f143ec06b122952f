// What the calls for other languages have in common, whichever box they open.
#![tactic(auto)]

ghost use Rattle.std.specs.Prelude.{◌≡◌};
ghost use Rattle.error.specs.Told.{told, number_in};
ghost use Rattle.exports_parts.specs.Plays.{policy_of, mode_of, settings};
ghost use Rattle.exports_parts.specs.Told.{Answers};

use config::AudioConfig;
use error::AudioError;
use mixer::VoiceStealingPolicy;
use output::DutyMode;

// 0 and the value in its cell; or the refusal's number, and the cell as it was.
pub fn give<T: Copy>(answer: Result<T, AudioError>, cell: &mut T) -> u8
    ensures { Answers (told answer) cell.old result cell.new }
{
    match answer {
        Ok(x) => {
            *cell = x;
            0
        }
        Err(e) => u8::from(e),
    }
}

// 0, or the refusal's number.
pub fn number_of(answer: Result<(), AudioError>) -> u8
    ensures { result ≡ number_in (told answer) }
{
    answer.map_or_else(u8::from, |()| 0)
}

// The C interface hands flags, so no enums here and below.
pub fn policy_of(free_only: bool) -> VoiceStealingPolicy
    ensures { result ≡ policy_of free_only }
{
    if free_only {
        VoiceStealingPolicy::FreeChannelOnly
    } else {
        VoiceStealingPolicy::LowestPriorityOldest
    }
}

pub fn mode_of(shaped: bool, second_order: bool) -> DutyMode
    ensures { result ≡ mode_of shaped second_order }
{
    if shaped {
        if second_order {
            DutyMode::SigmaDelta2ndOrder
        } else {
            DutyMode::SigmaDelta
        }
    } else {
        DutyMode::Linear
    }
}

pub fn settings(sample_rate_hz: u32, period: u16, mode: DutyMode, gain: u8) -> AudioConfig
    ensures { result ≡ settings sample_rate_hz period mode gain }
{
    let config = AudioConfig::new(sample_rate_hz, period, mode);
    config.master_gain_q8(gain)
}
