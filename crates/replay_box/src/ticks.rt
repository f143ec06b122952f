// One frame of the box that a script has open.
ghost use Rattle.std.specs.Prelude.{◌≡◌};
ghost use Rattle.replay_box.specs.Frames.{sampled, dutied, sided, wide_sided};

use crate::OpenBox;

impl OpenBox {
    #[tactic(auto, unfolding(crate::specs::Frames::sampled))]
    pub fn tick_pcm(&mut self, bytes: &[u8]) -> i8
        ensures { record { held = self.new; gave = result } ≡ sampled bytes.now self.old }
    {
        match self {
            OpenBox::Engine(e) => e.tick_pcm(),
            OpenBox::Sounder(s) => s.tick_pcm(bytes),
        }
    }

    #[tactic(auto, unfolding(crate::specs::Frames::dutied))]
    pub fn tick(&mut self, bytes: &[u8]) -> u16
        ensures { record { held = self.new; gave = result } ≡ dutied bytes.now self.old }
    {
        match self {
            OpenBox::Engine(e) => e.tick(),
            OpenBox::Sounder(s) => s.tick(bytes),
        }
    }

    // Another name of tick.
    #[tactic(auto, unfolding(crate::specs::Frames::dutied))]
    pub fn tick_pwm(&mut self, bytes: &[u8]) -> u16
        ensures { record { held = self.new; gave = result } ≡ dutied bytes.now self.old }
    {
        match self {
            OpenBox::Engine(e) => e.tick_pwm(),
            OpenBox::Sounder(s) => s.tick_pwm(bytes),
        }
    }

    #[tactic(auto, unfolding(crate::specs::Frames::sided))]
    pub fn tick_stereo_pcm(&mut self, bytes: &[u8]) -> (i8, i8)
        ensures { record { held = self.new; gave = result } ≡ sided bytes.now self.old }
    {
        match self {
            OpenBox::Engine(e) => e.tick_stereo_pcm(),
            OpenBox::Sounder(s) => s.tick_stereo_pcm(bytes),
        }
    }

    #[tactic(auto, unfolding(crate::specs::Frames::wide_sided))]
    pub fn tick_stereo_i16(&mut self, bytes: &[u8]) -> (i16, i16)
        ensures { record { held = self.new; gave = result } ≡ wide_sided bytes.now self.old }
    {
        match self {
            OpenBox::Engine(e) => e.tick_stereo_i16(),
            OpenBox::Sounder(s) => s.tick_stereo_i16(bytes),
        }
    }
}
