// A box of the present rules (document 02) that lives for one call, made ready; and the requests that it plays. A library of its own, since the compiler
// weighs a library as a whole: where frames stand beside, which let requests in that wait, one that is played takes a quarter more instructions.
#![tactic(auto)]

ghost use Rattle.std.specs.Prelude.{◌≡◌};
ghost use Rattle.error.specs.Told.{told};
ghost use Rattle.output.specs.declared.DutyMode.TheVariants as M;
ghost use Rattle.exports_parts.specs.Told.{Answers};
ghost use Rattle.exports_parts.specs.Plays.{policy_of, settings, readied, play_told};
ghost use Rattle.exports_play.specs.Plays.{calls};

use config::{AudioConfig, DEFAULT_PWM_PERIOD};
use error::AudioError;
use output::DutyMode;
use sounder::Sounder;

// A box with its bank, or what turned it down.
#[tactic(auto, unfolding(exports_parts::specs::Plays::readied))]
pub fn ready(
    n: usize,
    free_only: bool,
    config: AudioConfig,
    bytes: &[u8],
    effect_count: u16,
) -> Result<Sounder, AudioError>
    ensures { told result ≡ readied calls n (policy_of free_only) config bytes.now effect_count }
{
    let (mut s, opened) = Sounder::open(n, config, exports_parts::policy_of(free_only));
    opened?;
    s.set_bank(bytes, config.sample_rate_hz, effect_count)?;
    Ok(s)
}

// Plays the requests: each one's outcome, and how many voices are audible then. C calls it by `exports_play_c`.
pub fn birchjack_play(
    n: usize,
    free_only: bool,
    bytes: &[u8],
    sample_rate_hz: u32,
    effect_count: u16,
    requests: &[u8],
    outcomes: &mut [u16],
    audible: &mut usize,
) -> u8
    ensures { Answers (play_told calls (readied calls n (policy_of free_only) (settings sample_rate_hz 1000 M.Linear 255) bytes.now effect_count) bytes.now requests.now outcomes.old) (outcomes.old, audible.old) result (outcomes.new, audible.new) }
{
    let config = exports_parts::settings(sample_rate_hz, DEFAULT_PWM_PERIOD, DutyMode::Linear, 255);
    match ready(n, free_only, config, bytes, effect_count) {
        Err(e) => u8::from(e),
        Ok(mut s) => {
            s.play_each(bytes, requests, outcomes);
            *audible = s.active_voice_count();
            0
        }
    }
}
