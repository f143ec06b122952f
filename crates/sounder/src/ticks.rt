// The calls of one frame: each is its buffer call on one cell, or one pair, and is lent the bank's bytes as that is.
ghost use Rattle.sounder.specs.Sounders.{Gives};
ghost use Rattle.sounder.specs.Frames.{sample_box, duty_box, sides_box, wide_sides};

use crate::Sounder;

impl Sounder {
    #[tactic(auto, using(laws::proofs::Made::made), unfolding(laws::specs::Runs::after, laws::specs::Runs::given))]
    pub fn tick_pcm(&mut self, bytes: &[u8]) -> i8
        ensures { Gives (sample_box bytes.now self.old) result self.new }
    {
        let mut cell = [0i8; 1];
        self.fill_pcm_i8_buffer(bytes, &mut cell);
        cell[0]
    }

    // The sample's duty.
    #[tactic(auto, using(laws::proofs::Made::made), unfolding(laws::specs::Runs::after, laws::specs::Runs::given))]
    pub fn tick(&mut self, bytes: &[u8]) -> u16
        ensures { Gives (duty_box bytes.now self.old) result self.new }
    {
        let mut cell = [0u16; 1];
        self.fill_duty_buffer(bytes, &mut cell);
        cell[0]
    }

    // Another name of tick.
    pub fn tick_pwm(&mut self, bytes: &[u8]) -> u16
        ensures { Gives (duty_box bytes.now self.old) result self.new }
    {
        self.tick(bytes)
    }

    // Left and right.
    #[tactic(auto, using(laws::proofs::Made::made), unfolding(laws::specs::Runs::after, laws::specs::Runs::given))]
    pub fn tick_stereo_pcm(&mut self, bytes: &[u8]) -> (i8, i8)
        ensures { Gives (sides_box bytes.now self.old) result self.new }
    {
        let mut cells = [0i8; 2];
        self.fill_stereo_panned_i8_buffer(bytes, &mut cells);
        (cells[0], cells[1])
    }

    pub fn tick_stereo_i16(&mut self, bytes: &[u8]) -> (i16, i16)
        ensures { Gives (wide_sides (sides_box bytes.now self.old)) result self.new }
    {
        let (left, right) = self.tick_stereo_pcm(bytes);
        (output::pcm_to_i16(left), output::pcm_to_i16(right))
    }
}
