// How often a signal would be turned away: of all lists of requests of a length, after how many one more request is refused.
#![tactic(auto)]

ghost use Rattle.std.specs.Prelude.{◌≡◌, ◌+◌, ◌≤◌};
ghost use Rattle.counts.specs.Counts.{uncounted, counted, AddUp};
ghost use Rattle.counts.specs.Rows.{longer, row_of, Small};
ghost use Rattle.error.specs.Told.{Answered};

use error::AudioError;

// The lists after which the request is refused, and those after which it is accepted.
#[derive(Clone, Copy, Debug, PartialEq, Eq)]
pub struct Counts {
    pub refused: u32,
    pub accepted: u32,
}

// Whether a site is past what is counted. A priority below the number of priorities leaves at least one.
#[tactic(auto, using(std::proofs::lemmas::Bool::Decides::nat_tests), unfolding(crate::specs::Counts::uncounted))]
fn past(voices: u8, priorities: u8, requests: u8, priority: u8) -> bool
    ensures { result ≡ uncounted voices priorities requests priority }
{
    priorities > 4 || requests > 8 || voices > 16 || priority >= priorities
}

// The row for lists of one request more, in place.
fn lengthen(row: &mut [u32; 9], high: u32, low: u32)
    requires { Small high low row.old }
    ensures { row.new ≡ longer high low row.old }
{
    let mut before = row[0];
    for x in row {
        let here = *x;
        *x = high * before + low * here;
        before = here;
    }
}

// The row for lists of so many requests, with no list made.
fn row_of(requests: u8, high: u32, low: u32) -> [u32; 9]
    requires { (requests ≤ 8) × (high + low ≤ 4) }
    ensures { result ≡ row_of high low requests }
{
    let mut row: [u32; 9] = [1, 0, 0, 0, 0, 0, 0, 0, 0];
    for _ in 0..requests {
        lengthen(&mut row, high, low);
    }
    row
}

// N voices, k priorities, lists of n requests, and the priority of the one that comes after.
pub fn turned_away(
    voices: u8,
    priorities: u8,
    requests: u8,
    priority: u8,
) -> Result<Counts, AudioError>
    ensures { Answered (AddUp priorities requests) (counted voices priorities requests priority) result }
{
    if past(voices, priorities, requests, priority) {
        return Err(AudioError::NotCounted);
    }
    let row = row_of(
        requests,
        u32::from(priorities - priority),
        u32::from(priority),
    );
    let all = row[0];
    // no list of fewer requests than voices fills them
    let refused = if requests < voices {
        0
    } else {
        row[usize::from(voices)]
    };
    Ok(Counts {
        refused,
        accepted: all - refused,
    })
}
