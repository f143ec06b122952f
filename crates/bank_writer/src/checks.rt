// What is looked at before anything is written.
ghost use Rattle.std.specs.Prelude.{◌≡◌, ◌≤◌, take};
ghost use Rattle.bank_writer.specs.Refusals.{outside, some_of};
ghost use Rattle.bank_writer.specs.Places.{Starts};

use crate::NewEntry;

// Whether one of the first `count` has a kind above 5 or a payload over 65,535 bytes.
pub fn some_outside(entries: [NewEntry; 64], count: usize) -> bool
    requires { count ≤ 64 }
    ensures { result ≡ some_of outside (take count entries) }
{
    entries[..count].iter().any(|e| e.kind > 5 || e.len > 65535)
}

// Where each payload begins among those lent, and behind the last of them where they end. 64 lengths of 32 bits do not wrap.
pub fn starts_of(entries: [NewEntry; 64]) -> [usize; 65]
    ensures { Starts entries result }
{
    let mut starts = [0usize; 65];
    let mut next: usize = 0;
    for (i, e) in entries.iter().enumerate() {
        next += e.len as usize;
        starts[i + 1] = next;
    }
    starts
}
