// Whether the signal sounds at a sample, and a run of samples. A place in the cycle is found by one division and kept from
// sample to sample after that, so that a run may go on past the last 64-bit count.
ghost use Rattle.std.specs.Prelude.{◌≡◌, ◌<◌, get_or, length};
ghost use Rattle.evacuation.specs.Pattern.{lengths, cycle_of, sounds, samples_from};
ghost use Rattle.evacuation.specs.Opened.{ValidRate};
ghost use Rattle.evacuation.specs.Places.{Stands, next_place};

use super::{Pattern, Place, is_on, next_phase, phase_byte, phase_ms};

impl Pattern {
    // The samples of a phase: 1,500 × 65,537 fits 32 bits. `phase < 6` stays, as lib.rt says.
    fn phase_samples(self, phase: usize) -> u32
        requires { phase < 6 }
        ensures samples { result ≡ get_or (lengths self) phase 0 }
        ensures rate { ValidRate self }
    {
        u32::from(phase_ms(phase)) * self.sample_rate_hz / 1000
    }

    // How many samples a cycle has.
    pub fn cycle_samples(self) -> u32
        ensures samples { result ≡ cycle_of self }
        ensures some { 0 < result }
    {
        let mut samples: u32 = 0;
        for n in self.lengths() {
            samples += n;
        }
        samples
    }

    // All six, so that a run of samples has no division.
    fn lengths(self) -> [u32; 6]
        ensures samples { result ≡ lengths self }
        ensures rate { ValidRate self }
    {
        let mut out = [0u32; 6];
        for (k, n) in out.iter_mut().enumerate() {
            *n = self.phase_samples(k);
        }
        out
    }

    // Where a sample stands.
    fn place(self, sample: u64) -> Place
        ensures { Stands self sample result }
    {
        let lengths = self.lengths();
        let mut at = (sample % u64::from(self.cycle_samples())) as u32;
        for (k, &n) in lengths[..5].iter().enumerate() {
            if at < n {
                return Place {
                    phase: k,
                    left: n - at,
                };
            }
            at -= n;
        }
        Place {
            phase: 5,
            left: lengths[5] - at,
        }
    }

    // Whether the signal sounds at a sample, counted from its start.
    pub fn sounds(self, sample: u64) -> bool
        ensures { result ≡ sounds self sample }
    {
        is_on(self.place(sample).phase)
    }

    // A run of samples from `first` on, 1 on and 0 off, as many as there are cells.
    pub fn fill(self, first: u64, out: &mut [u8])
        ensures { out.new ≡ samples_from self first (length out.old) }
    {
        let lengths = self.lengths();
        let mut place = self.place(first);
        for cell in out {
            *cell = phase_byte(place.phase);
            place = place.next(&lengths);
        }
    }
}

impl Place {
    // Where the next sample stands.
    #[tactic(auto, unfolding(crate::specs::Places::next_place))]
    fn next(self, lengths: &[u32; 6]) -> Place
        requires { (self.phase < 6) × (0 < self.left) }
        ensures { result ≡ next_place lengths.now self }
    {
        if self.left > 1 {
            return Place {
                left: self.left - 1,
                ..self
            };
        }
        let phase = next_phase(self.phase);
        Place {
            phase,
            left: lengths[phase],
        }
    }
}
