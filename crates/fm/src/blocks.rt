// A block of requests: the loop has the two phases alone.
ghost use Rattle.std.specs.Prelude.{◌≡◌, length, min};
ghost use Rattle.laws.specs.Runs.{after};
ghost use Rattle.fixed.specs.Answers.{Filled};
ghost use Rattle.fm.specs.Fm.{advanced_fm};
ghost use Rattle.fm.specs.Blocks.{next_fm, fm_run, fm_samples};

use super::{FmVoice, sample_at};
use fixed::Step;

impl FmVoice {
    // A sample of an active oscillator in each cell.
    fn samples(self, out: &mut [i8]) -> FmVoice
        ensures value { result ≡ after advanced_fm (length out.old) self }
        ensures out_after { out.new ≡ fm_samples (length out.old) self }
    {
        let mut carrier = self.carrier_phase;
        let mut modulator = self.mod_phase;
        for cell in out {
            *cell = sample_at(carrier, modulator, self.mod_depth_q8);
            carrier = carrier.wrapping_add(self.carrier_inc);
            modulator = modulator.wrapping_add(self.mod_inc);
        }
        FmVoice {
            carrier_phase: carrier,
            mod_phase: modulator,
            ..self
        }
    }

    // As many requests as are asked for, 256 at most. A block is lent, since there is no heap, and has one size for all.
    pub fn fill(self, len: usize, out: &mut [i8; 256]) -> Step<FmVoice, usize>
        ensures voice_value { result.voice ≡ after next_fm (min len 256) self }
        ensures filled { Filled (fm_run (min len 256) self) out.old result.given out.new }
    {
        if self.active {
            let n = len.min(256);
            let voice = self.samples(&mut out[..n]);
            Step { voice, given: n }
        } else {
            Step {
                voice: self,
                given: 0,
            }
        }
    }
}
