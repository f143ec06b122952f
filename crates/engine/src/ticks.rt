// The calls of one frame: each is its buffer call on one cell, or one pair.
ghost use Rattle.laws.specs.Made.{Made};
ghost use Rattle.frame.specs.Frames.{ValidMono, ValidDuty, ValidStereo, mono_frame, duty_frame, stereo_frame};
ghost use Rattle.engine.specs.Ticks.{wide_sides};

use crate::AudioEngine;

impl AudioEngine {
    #[tactic(auto, using(laws::proofs::Made::made), unfolding(laws::specs::Runs::after, laws::specs::Runs::given))]
    pub fn tick_pcm(&mut self) -> i8
        ensures { Made ValidMono (mono_frame self.old) (record { mixer = self.new; pcm = result }) }
    {
        let mut cell = [0i8; 1];
        self.fill_pcm_i8_buffer(&mut cell);
        cell[0]
    }

    // The sample's duty.
    #[tactic(auto, using(laws::proofs::Made::made), unfolding(laws::specs::Runs::after, laws::specs::Runs::given))]
    pub fn tick(&mut self) -> u16
        ensures { Made ValidDuty (duty_frame self.old) (record { mixer = self.new; duty = result }) }
    {
        let mut cell = [0u16; 1];
        self.fill_duty_buffer(&mut cell);
        cell[0]
    }

    // Another name of tick.
    pub fn tick_pwm(&mut self) -> u16
        ensures { Made ValidDuty (duty_frame self.old) (record { mixer = self.new; duty = result }) }
    {
        self.tick()
    }

    // Left and right.
    #[tactic(auto, using(laws::proofs::Made::made), unfolding(laws::specs::Runs::after, laws::specs::Runs::given))]
    pub fn tick_stereo_pcm(&mut self) -> (i8, i8)
        ensures { Made ValidStereo (stereo_frame self.old) (record { mixer = self.new; left = result.0; right = result.1 }) }
    {
        let mut cells = [0i8; 2];
        self.fill_stereo_panned_i8_buffer(&mut cells);
        (cells[0], cells[1])
    }

    pub fn tick_stereo_i16(&mut self) -> (i16, i16)
        ensures { Made ValidStereo (wide_sides (stereo_frame self.old)) (record { mixer = self.new; left = result.0; right = result.1 }) }
    {
        let (left, right) = self.tick_stereo_pcm();
        (output::pcm_to_i16(left), output::pcm_to_i16(right))
    }
}
