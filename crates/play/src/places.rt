// A play request's place and voice, for a caller that keeps the voices and their keys: no state is copied.
ghost use Rattle.std.specs.Prelude.{take};
ghost use Rattle.error.specs.Told.{Answered};
ghost use Rattle.allocate.specs.Keys.{bound_of, lowest_key};
ghost use Rattle.bank.specs.Banks.{ValidBank};
ghost use Rattle.start.specs.Starts.{request_start_under};
ghost use Rattle.play.specs.Plays.{ValidPlaced, placed_by};

use bank::SoundBank;
use error::AudioError;
use mixer::VoiceStealingPolicy;
use start::Request;
use voice::Voice;

// Where the keys are those of the N voices of a box, what its play request makes (`play` Placing); `present` for the box of the present rules.
#[tactic(auto, using(error::proofs::Told::answered, crate::proofs::Laws::placing))]
pub fn place(
    keys: &[u16],
    n: usize,
    policy: VoiceStealingPolicy,
    bank: Option<SoundBank>,
    bytes: &[u8],
    request: Request,
    present: bool,
) -> Result<(usize, Voice), AudioError>
    requires { ValidBank bank }
    ensures { Answered ValidPlaced (placed_by (lowest_key (take n keys.now) (bound_of policy request.priority)) (request_start_under present bank bytes.now request)) result }
{
    let bound = allocate::keys::bound(policy, request.priority);
    let i = allocate::keys::lowest(keys, n, bound).ok_or(AudioError::VoiceBusy)?;
    let v = start::start_request(bank, bytes, request, present)?;
    Ok((i, v))
}
