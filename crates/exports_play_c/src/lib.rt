// What C and Rust call of `exports_play`: a crate is a library or a static library, and `exports` uses that one as a library.
#![tactic(auto)]

ghost use Rattle.output.specs.declared.DutyMode.TheVariants as M;
ghost use Rattle.exports_parts.specs.Told.{Answers};
ghost use Rattle.exports_parts.specs.Plays.{policy_of, settings, readied, play_told};
ghost use Rattle.exports_play.specs.Plays.{calls};

// Plays the requests: each one's outcome, and how many voices are audible then.
#[unsafe(no_mangle)]
pub extern "C" fn birchjack_play(
    n: usize,
    free_only: bool,
    bytes: &[u8],
    sample_rate_hz: u32,
    effect_count: u16,
    requests: &[u8],
    outcomes: &mut [u16],
    audible: &mut usize,
) -> u8
    ensures { Answers (play_told calls (readied calls n (policy_of free_only) (settings sample_rate_hz 1000 M.Linear 255) bytes.now effect_count) bytes.now requests.now outcomes.old) (outcomes.old, audible.old) result (outcomes.new, audible.new) }
{
    exports_play::birchjack_play(
        n,
        free_only,
        bytes,
        sample_rate_hz,
        effect_count,
        requests,
        outcomes,
        audible,
    )
}
