// A block of ticks: the levels of those that stay within a phase are worked out on plain numbers. `Valid self` stays, as lib.rt says.
ghost use Rattle.std.specs.Prelude.{◌≡◌, ◌++◌, ◌+◌, ◌<◌, ◌≤◌, length, min, drop};
ghost use Rattle.laws.specs.Made.{Made};
ghost use Rattle.laws.specs.Runs.{after, given};
ghost use Rattle.envelope.specs.Adsrs.{Valid, ticked, advanced_toward};
ghost use Rattle.envelope.specs.Blocks.{Stays, level_after, level_toward};

use super::{Adsr, AdsrPhase, next_level};

// How many counts, at most n, stay below the length.
fn ticks_left(count: u32, length: u32, n: usize) -> usize
    requires { count < length }
    ensures { (result ≤ n) × (count + result < length) }
{
    ((length - count - 1) as usize).min(n)
}

impl Adsr {
    // A tick for each cell, towards a target, that end no phase: the cells take their levels.
    fn ramp(self, target: u8, out: &mut [u8]) -> Adsr
        requires { self.samples_in_phase + length out.old < self.phase_length_samples }
        ensures value { result ≡ after (advanced_toward target) (length out.old) self }
        ensures out_after { out.new ≡ given (advanced_toward target) (level_toward target) (length out.old) self }
    {
        let length = self.phase_length_samples;
        let mut level = self.level_q8;
        let mut count = self.samples_in_phase;
        for cell in out {
            count += 1;
            level = next_level(level, target, count, length);
            *cell = level;
        }
        Adsr {
            level_q8: level,
            samples_in_phase: count,
            ..self
        }
    }

    // How many ticks, at most n, end no phase.
    fn ticks_within(self, n: usize) -> usize
        requires { Valid self }
        ensures { (result ≤ n) × Stays result self }
    {
        match self.phase {
            AdsrPhase::Attack | AdsrPhase::Decay | AdsrPhase::Release => {
                ticks_left(self.samples_in_phase, self.phase_length_samples, n)
            }
            AdsrPhase::Sustain | AdsrPhase::Idle => n,
        }
    }

    // A tick for each cell, that end no phase: the cells take their levels.
    fn within(self, out: &mut [u8]) -> Adsr
        requires { Valid self × Stays (length out.old) self }
        ensures made { Made Valid (after ticked (length out.old) self) result }
        ensures out_after { out.new ≡ given ticked level_after (length out.old) self }
    {
        match self.phase {
            AdsrPhase::Attack => self.ramp(255, out),
            AdsrPhase::Decay => self.ramp(self.spec.sustain_q8, out),
            AdsrPhase::Release => self.ramp(0, out),
            AdsrPhase::Sustain | AdsrPhase::Idle => {
                out.fill(self.level_q8);
                self
            }
        }
    }

    // Ticks within a phase, then one that may end it, until there is one for each cell. A turn goes n + 1 ticks on, so it is no `for`.
    fn tick_all(self, out: &mut [u8]) -> Adsr
        requires { Valid self }
        ensures made { Made Valid (after ticked (length out.old) self) result }
        ensures out_after { out.new ≡ given ticked level_after (length out.old) self }
    {
        let mut a = self;
        let mut k: usize = 0;
        while k < out.len() {
            let n = a.ticks_within(out.len() - k - 1);
            a = a.within(&mut out[k..k + n]);
            a = a.tick();
            out[k + n] = a.level_q8;
            k += n + 1;
        }
        a
    }

    // The levels after each of a block's ticks, 256 at most, and the envelope after the last. A block of one size, lent, since there is no heap.
    pub fn levels(self, len: usize, out: &mut [u8; 256]) -> Adsr
        requires { Valid self }
        ensures made { Made Valid (after ticked (min len 256) self) result }
        ensures out_after { out.new ≡ given ticked level_after (min len 256) self ++ drop (min len 256) out.old }
    {
        self.tick_all(&mut out[..len.min(256)])
    }
}
