// What happens at the start of a frame: requests that wait go in while a voice is free. A part of the box of the present rules (document 02, T-08).
#![tactic(auto)]

ghost use Rattle.std.specs.Prelude.{◌≡◌};
ghost use Rattle.laws.specs.Made.{Made};
ghost use Rattle.marks.specs.Marks as M;
ghost use Rattle.entering.specs.Lined.{Valid};
ghost use Rattle.entering.specs.Entering.{voice_free, kept_after, tried_in, entered_in};

use error::AudioError;
use marks::Present;
use waiting::{Line, Waiting};

// A state of the present rules, the requests that wait, and why the latest that was dropped was refused.
#[derive(Clone, Copy)]
pub struct Lined {
    pub present: Present,
    pub line: Line,
    pub kept: Option<(AudioError, u16)>,
}

// Whether one of the N voices is inaudible.
#[tactic(auto, unfolding(crate::specs::Entering::voice_free))]
pub fn voice_free(p: Present) -> bool
    requires { M.Valid p }
    ensures { result ≡ voice_free p }
{
    let m = p.mixer;
    m.active_voice_count() < m.n
}

fn kept_after(
    outcome: Result<usize, AudioError>,
    label: u16,
    kept: Option<(AudioError, u16)>,
) -> Option<(AudioError, u16)>
    ensures { result ≡ kept_after outcome label kept }
{
    match outcome {
        Ok(_) => kept,
        Err(e) => Some((e, label)),
    }
}

// A request tried as a play request is, and out of the line either way.
fn tried(s: Lined, bytes: &[u8], w: Waiting) -> Lined
    requires { Valid s }
    ensures { Made Valid (tried_in bytes.now w s) result }
{
    let request = w.request;
    let q = requests::play_request(s.present, bytes, request);
    let outcome = q.outcome;
    let present = q.present;
    let before = s.kept;
    let kept = kept_after(outcome, w.label, before);
    let waiting = s.line;
    let line = waiting.without(w.label);
    Lined {
        present,
        line,
        kept,
    }
}

// Those in line go in, next first, while a voice is free.
pub fn enter(s: Lined, bytes: &[u8]) -> Lined
    requires { Valid s }
    ensures { Made Valid (entered_in bytes.now s) result }
{
    let line = s.line;
    let mut out = s;
    for w in &line.places[..line.count] {
        if !voice_free(out.present) {
            return out;
        }
        out = tried(out, bytes, *w);
    }
    out
}
