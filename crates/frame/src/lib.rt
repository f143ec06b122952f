// What one frame of a mixer's state gives, and how many a fade has left. The code that makes frames is the block core's.
#![tactic(auto)]

ghost use Rattle.std.specs.Prelude.{◌≡◌};
ghost use Rattle.mixer.specs.Mixers.{Valid};
ghost use Rattle.frame.specs.Lasting.{frames_left};

use mixer::Mixer;

// The kinds of frame differ in what is given alone; contracts name it (`pcm`, `duty`, `left`), which one generic struct's field would not.
// A state after a mono frame, and the sample.
#[derive(Clone, Copy)]
pub struct MonoFrame {
    pub mixer: Mixer,
    pub pcm: i8,
}

// A state after a frame, and the sample's duty.
#[derive(Clone, Copy)]
pub struct DutyFrame {
    pub mixer: Mixer,
    pub duty: u16,
}

#[derive(Clone, Copy)]
pub struct StereoFrame {
    pub mixer: Mixer,
    pub left: i8,
    pub right: i8,
}

// How many frames a fade has left, mono or stereo, the one in which it ends among them; 0 where none is running.
pub fn frames_left(m: Mixer) -> u8
    requires { Valid m }
    ensures { result ≡ frames_left m }
{
    let t = m.crossfade_t_q8;
    let step = m.crossfade_step_q8;
    if m.crossfade_active {
        if t == 255 {
            return 1;
        }
        return (254 - t) / step + 1;
    }
    0
}
