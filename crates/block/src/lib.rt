// Up to 256 frames at once, voice by voice: each voice runs over the block, and passes over its cells add up, mix and level.
#![tactic(auto)]

ghost use Rattle.std.specs.Prelude.{◌≡◌, true, false, ◌+◌, ◌≤◌, ◌<◌, min, length};
ghost use Rattle.mixer.specs.Mixers.{Valid};
ghost use Rattle.block.specs.Blocks.{ValidInside, Block};
ghost use Rattle.block.specs.Parts.{MonoPart, Part, Stretch, Slow, FadeFrames};

use marks::{Marks, Present};
use mixer::Mixer;

mod ends;
mod passes;

// The loops over voices go by place: a turn reads and writes voice i and reads the mark beside it, and a proof knows nothing of what is written behind a
// zip. `sides`, stereo or mono, is a Bool as in the definition of a part, a stretch and a block, so that an enum would say no more.
// `at` and `len` stand beside a buffer, and no part is lent: contracts say of the whole buffer which cells are written and that the others stay.

// len frames outside a fade, written from `at` on.
fn plain(m: Mixer, marks: Marks, at: usize, len: usize, out: &mut [i8; 256]) -> Mixer
    requires { Valid m × (m.crossfade_active ≡ false) × (at + len ≤ 256) × (length out.old ≡ 256) }
    ensures { MonoPart marks m at len out.old result out.new }
{
    let n = m.n;
    let mut mixed = m;
    let mut samples = [0i8; 256];
    let mut sums = [0i16; 256];
    let mut counts = [0u8; 256];
    for i in 0..n {
        let v = mixed.voices[i];
        let mark = marks.voices[i];
        let r = v.run(len, mark.whole, &mut samples);
        let w = r.voice;
        mixed.voices[i] = w;
        let given = r.given;
        passes::add(&samples, 256, given, &mut sums);
        passes::tally(given, &mut counts);
    }
    let config = m.config;
    let gain = fixed::gain_factor(config.master_gain_q8, marks.master);
    passes::write_means(&sums, &counts, gain, at, len, out);
    mixed
}

// len frames of a fade that goes on after them.
fn fading(m: Mixer, marks: Marks, len: usize, out: &mut [i8; 256]) -> Mixer
    requires { Valid m × (m.crossfade_active ≡ true) × (len ≤ 256) × (length out.old ≡ 256) × Slow m len }
    ensures { MonoPart marks m 0 len out.old result out.new }
{
    let mut mixed = ends::rested(m, len);
    let mut first = [0i8; 256];
    let mut second = [0i8; 256];
    let a = m.voices[0];
    let ka = marks.voices[0];
    let ra = a.run(len, ka.whole, &mut first);
    let b = m.voices[1];
    let kb = marks.voices[1];
    let rb = b.run(len, kb.whole, &mut second);
    let wa = ra.voice;
    let wb = rb.voice;
    mixed.voices[0] = wa;
    mixed.voices[1] = wb;
    let config = m.config;
    let na = ra.given;
    let nb = rb.given;
    passes::write_faded(
        &first,
        na,
        &second,
        nb,
        m.crossfade_t_q8,
        m.crossfade_step_q8,
        fixed::gain_factor(config.master_gain_q8, marks.master),
        len,
        out,
    );
    ends::moved(mixed, len)
}

// len frames in stereo, in which a fade shows only by its end, written from `at` on.
fn panned(
    m: Mixer,
    marks: Marks,
    at: usize,
    len: usize,
    left: &mut [i8; 256],
    right: &mut [i8; 256],
) -> Mixer
    requires { Valid m × (at + len ≤ 256) × (length left.old ≡ 256) × (length right.old ≡ 256) × Slow m len }
    ensures { Part true marks m at len left.old right.old result left.new right.new }
{
    let n = m.n;
    let mut mixed = m;
    let mut samples = [0i8; 256];
    let mut lefts = [0i16; 256];
    let mut rights = [0i16; 256];
    let counts = [0u8; 256];
    for i in 0..n {
        let v = mixed.voices[i];
        let mark = marks.voices[i];
        let r = v.run(len, mark.whole, &mut samples);
        let w = r.voice;
        mixed.voices[i] = w;
        let given = r.given;
        let g = fixed::pan_to_gains_q8(v.pan_q8);
        let gl = fixed::gain_factor(g.left, mark.whole);
        passes::add(&samples, gl, given, &mut lefts);
        let gr = fixed::gain_factor(g.right, mark.whole);
        passes::add(&samples, gr, given, &mut rights);
    }
    let config = m.config;
    let gain = fixed::gain_factor(config.master_gain_q8, marks.master);
    passes::write_means(&lefts, &counts, gain, at, len, left);
    passes::write_means(&rights, &counts, gain, at, len, right);
    ends::moved(mixed, len)
}

// n frames over a fade's end, which is in the frame after f of them.
fn over_end(
    p: Present,
    sides: bool,
    f: usize,
    n: usize,
    left: &mut [i8; 256],
    right: &mut [i8; 256],
) -> Present
    requires { ValidInside p × (n ≤ 256) × (length left.old ≡ 256) × (length right.old ≡ 256) × FadeFrames p.mixer.crossfade_active p.mixer.crossfade_t_q8 p.mixer.crossfade_step_q8 n f × (f < n) }
    ensures { Stretch sides p 0 n left.old right.old result left.new right.new }
{
    let m = p.mixer;
    let old = p.marks;
    let marks = ends::marks_ended(old);
    if sides {
        let a = panned(m, old, 0, f, left, right);
        let b = ends::ended(a, old.sounds_on);
        let mixer = panned(b, marks, f, n - f, left, right);
        return Present { mixer, marks };
    }
    let a = fading(m, old, f, left);
    let b = ends::ended(a, old.sounds_on);
    let mixer = plain(b, marks, f, n - f, left);
    Present { mixer, marks }
}

// n frames, 256 at most, in which no fade ends.
fn steady(
    m: Mixer,
    marks: Marks,
    sides: bool,
    n: usize,
    left: &mut [i8; 256],
    right: &mut [i8; 256],
) -> Mixer
    requires { Valid m × (n ≤ 256) × (length left.old ≡ 256) × (length right.old ≡ 256) × Slow m n }
    ensures { Part sides marks m 0 n left.old right.old result left.new right.new }
{
    if sides {
        return panned(m, marks, 0, n, left, right);
    }
    if m.crossfade_active {
        return fading(m, marks, n, left);
    }
    plain(m, marks, 0, n, left)
}

// len frames, 256 at most, in stereo or in mono: `left` takes the samples of the left side, or of the only one, from the front on, and
// `right` those of the right side.
pub fn sound(
    p: Present,
    sides: bool,
    len: usize,
    left: &mut [i8; 256],
    right: &mut [i8; 256],
) -> Present
    requires { ValidInside p }
    ensures { Block sides p (min len 256) left.old right.old result left.new right.new }
{
    let n = tone::block_len(len);
    let m = p.mixer;
    let f = ends::fade_frames(m.crossfade_active, m.crossfade_t_q8, m.crossfade_step_q8, n);
    if f < n {
        return over_end(p, sides, f, n, left, right);
    }
    let marks = p.marks;
    let mixer = steady(m, marks, sides, n, left, right);
    Present { mixer, marks }
}
