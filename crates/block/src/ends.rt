// How far a fade goes in a block, and its end.
ghost use Rattle.std.specs.Prelude.{◌≡◌, true, ◌+◌, ◌*◌, ◌≤◌, ◌<◌};
ghost use Rattle.laws.specs.Made.{Made};
ghost use Rattle.frame.specs.Fades.{taken_over, envelope_after, fade_ended_by, marks_ended};
ghost use Rattle.mixer.specs.Mixers.{Valid};
ghost use Rattle.voice.specs.Voices as S;
ghost use Rattle.block.specs.Parts.{FadeFrames, Slow, moved_on, rested_others};

use envelope::Adsr;
use marks::Marks;
use mixer::Mixer;
use voice::Voice;

// How many of len frames come before a fade's end, which is in the frame that takes t to 255: all, outside a fade.
pub fn fade_frames(active: bool, t: u8, step: u8, len: usize) -> usize
    requires { active ≡ true → 1 ≤ step }
    ensures { FadeFrames active t step len result }
{
    if active {
        if t == 255 {
            return 0;
        }
        let most = ((254 - t) / step) as usize;
        return most.min(len);
    }
    len
}

// Voice 1's as it is before the frame's tick, where the call that began the fade has voice 0 sound on; else an idle one. `on` is the state's own field.
#[tactic(auto, unfolding(frame::specs::Fades::envelope_after))]
fn envelope_after(old: Voice, new: Voice, on: bool) -> Adsr
    requires { S.Valid old }
    ensures { result ≡ envelope_after on old new }
{
    if on {
        return new.adsr;
    }
    let stopped = old.stop_immediate();
    stopped.adsr
}

#[tactic(auto, unfolding(frame::specs::Fades::taken_over))]
fn taken_over(adsr: Adsr, old: Voice, new: Voice) -> Voice
    ensures { result ≡ taken_over adsr old new }
{
    Voice {
        adsr,
        sample_rate_hz: old.sample_rate_hz,
        ..new
    }
}

// The frame in which the fade ends begins so.
pub fn ended(m: Mixer, on: bool) -> Mixer
    requires { Valid m × (m.crossfade_active ≡ true) }
    ensures { Made Valid (fade_ended_by on m) result }
{
    let mut out = Mixer {
        crossfade_t_q8: 0,
        crossfade_active: false,
        ..m
    };
    let a = m.voices[0];
    let b = m.voices[1];
    let adsr = envelope_after(a, b, on);
    let first = taken_over(adsr, a, b);
    out.voices[0] = first;
    let second = b.stop_immediate();
    out.voices[1] = second;
    out
}

// The mark of voice 1 goes with its source.
pub fn marks_ended(marks: Marks) -> Marks
    ensures { result ≡ marks_ended marks }
{
    let mut out = marks;
    let mark = marks.voices[1];
    out.voices[0] = mark;
    out
}

// t after len frames of a fade that goes on after them; outside a fade it stays.
pub fn moved(m: Mixer, len: usize) -> Mixer
    requires { Slow m len × (m.crossfade_active ≡ true → 1 ≤ m.crossfade_step_q8) }
    ensures { result ≡ moved_on m len }
{
    if m.crossfade_active {
        if 0 < len {
            let t = m.crossfade_t_q8 + (len as u8) * m.crossfade_step_q8;
            return Mixer {
                crossfade_t_q8: t,
                ..m
            };
        }
    }
    m
}

// Every voice but 0 and 1 ticks on, with no sample asked for.
pub fn rested(m: Mixer, len: usize) -> Mixer
    requires { Valid m × (2 ≤ m.n) × (len ≤ 256) }
    ensures { result ≡ rested_others m len }
{
    let n = m.n;
    let mut out = m;
    // By place, as the definition of the others counts: as a lent part it would have to be stated anew.
    for i in 2..n {
        let v = out.voices[i];
        out.voices[i] = v.rest(len);
    }
    out
}
