// A whole script on a slice, to what its lines tell on a slice.
#![tactic(auto)]

ghost use Rattle.std.specs.Prelude.{◌≡◌};
ghost use Rattle.exports_replay.specs.Runs.{answers, sounds, is_good, Poured};

use replay_session::Session;

mod cut;
mod hosts;
mod put;

// How much the lines tell, in bytes or cells, and whether none of them is bad. Not an Option of the length: what was told up to a bad line
// counts too.
#[derive(Clone, Copy)]
pub struct Ran {
    pub len: usize,
    pub good: bool,
}

// The answers of a script's lines, as many bytes of them as there is room for.
pub fn answers(script: &[u8], out: &mut [u8]) -> Ran
    ensures { Poured (answers script.now) (is_good script.now) out.old out.new result }
{
    let mut text = [0u8; 262144];
    let mut s = Session::new();
    let mut left = script;
    let mut len = 0usize;
    let mut good = true;
    while good && !left.is_empty() {
        let cut = cut::first_line(left);
        let a = s.answer(cut.line, &mut text);
        put::poured(&text[..a.len], out, len);
        len = len.saturating_add(a.len);
        good = a.more;
        left = cut.rest;
    }
    Ran { len, good }
}

// The sound of a script's lines in 16-bit stereo cells, left before right, as many of them as there is room for.
pub fn sound(script: &[u8], out: &mut [i16]) -> Ran
    ensures { Poured (sounds script.now) (is_good script.now) out.old out.new result }
{
    let mut text = [0u8; 262144];
    let mut cells = [0i16; 4096];
    let mut s = Session::new();
    let mut left = script;
    let mut len = 0usize;
    let mut good = true;
    while good && !left.is_empty() {
        let cut = cut::first_line(left);
        let n = render_sounds::sound(cut.line, &s, &mut cells);
        put::poured(&cells[..n], out, len);
        len = len.saturating_add(n);
        let a = s.answer(cut.line, &mut text);
        good = a.more;
        left = cut.rest;
    }
    Ran { len, good }
}
