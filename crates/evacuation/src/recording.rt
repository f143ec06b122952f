// One pass over a recording: the phase that is heard and how long it has been heard are all that is kept.
ghost use Rattle.std.specs.Prelude.{◌≡◌, ◌<◌, get_or};
ghost use Rattle.evacuation.specs.Pattern.{phases, within_tenth};
ghost use Rattle.evacuation.specs.Reader.{whole_cycles};
ghost use Rattle.evacuation.specs.Opened.{ValidRate};

use super::{Reader, next_phase, phase_byte, phase_ms};

// Whether so many samples are a phase. What is above eleven tenths is turned down first: ten thousand times the rest fits. `phase < 6` stays, as lib.rt says.
fn within_tenth(sample_rate_hz: u32, phase: usize, samples: usize) -> bool
    requires rate { ValidRate sample_rate_hz }
    requires one { phase < 6 }
    ensures { result ≡ within_tenth (get_or phases phase 0) sample_rate_hz samples }
{
    let nominal = u64::from(phase_ms(phase)) * u64::from(sample_rate_hz);
    let count = samples as u64;
    if count > 11 * nominal / 10000 {
        return false;
    }
    9 * nominal <= 10000 * count
}

impl Reader {
    // Whether a recording, a byte a sample, 1 on and 0 off, is whole cycles of the pattern.
    pub fn whole_cycles(self, recording: &[u8]) -> bool
        ensures { result ≡ whole_cycles self recording.now }
    {
        let rate = self.sample_rate_hz;
        let mut phase: usize = 0;
        let mut heard: usize = 0;
        for &b in recording {
            if b == phase_byte(phase) {
                heard += 1;
            } else {
                if b > 1 {
                    return false;
                }
                if !within_tenth(rate, phase, heard) {
                    return false;
                }
                phase = next_phase(phase);
                heard = 1;
            }
        }
        phase == 5 && within_tenth(rate, phase, heard)
    }
}
