// A block of frames of one voice at once.
ghost use Rattle.std.specs.Prelude.{◌≡◌, false, cond, ◌||◌, ◌+◌, ◌≤◌, min, leb};
ghost use Rattle.laws.specs.Made.{Made};
ghost use Rattle.laws.specs.Runs.{after};
ghost use Rattle.envelope.specs.Adsrs.{active};
ghost use Rattle.voice.specs.Sources.{ValidSource};
ghost use Rattle.voice.specs.Voices.{Valid, ticked_voice};
ghost use Rattle.voice.specs.Blocks.{SourceBlock, VoiceBlock, kept, shaped_first};

use super::{Voice, VoiceSource};
use envelope::Adsr;
use fixed::Step;

impl VoiceSource {
    // len requests, 256 at most: what is given is how many of them, the first ones, gave a sample, written from the front on.
    // The block is the one of 256 that the sources' own calls take.
    fn fill(self, len: usize, out: &mut [i8; 256]) -> Step<VoiceSource, usize>
        requires { ValidSource self }
        ensures { SourceBlock self (min len 256) out.old result out.new }
    {
        match self {
            VoiceSource::Idle => Step {
                voice: self,
                given: 0,
            },
            VoiceSource::Tone(v) => {
                let f = v.fill(len, out);
                Step {
                    voice: VoiceSource::Tone(f.voice),
                    given: f.given,
                }
            }
            VoiceSource::PolyBlep(v) => {
                let f = v.fill(len, out);
                Step {
                    voice: VoiceSource::PolyBlep(f.voice),
                    given: f.given,
                }
            }
            VoiceSource::Fm(v) => {
                let f = v.fill(len, out);
                Step {
                    voice: VoiceSource::Fm(f.voice),
                    given: f.given,
                }
            }
        }
    }
}

// The first n cells, each by its level, then by the voice's gain. `whole` is the rule of gain 255, as `fixed::apply_gain_by` takes it.
// By index: tried `iter_mut().zip(levels)`, and the proof did not close, since that loop's state is an iterator of two parts.
fn shape(samples: &mut [i8; 256], levels: &[u8; 256], gain_q8: u8, whole: bool, n: usize)
    requires { n ≤ 256 }
    ensures { samples.new ≡ shaped_first whole gain_q8 n samples.old levels.now }
{
    for k in 0..n {
        let leveled = fixed::apply_gain_by(samples[k], levels[k], whole);
        samples[k] = fixed::apply_gain_by(leveled, gain_q8, whole);
    }
}

// Whether a source that gave so many of n samples was active before the last of the n requests. What it was before is a fact, and no switch.
fn lasting(is_active: bool, given: usize, n: usize) -> bool
    requires { given ≤ 256 }
    ensures { result ≡ cond is_active (leb n (given + 1)) false }
{
    is_active && n <= given + 1
}

// The source that a voice keeps: the idle one where nothing can be heard. Whether it was active is its caller's to say, who knows it of a block.
pub(crate) fn keep(source: VoiceSource, is_active: bool, adsr: Adsr) -> VoiceSource
    ensures { result ≡ kept (is_active || active adsr) source }
{
    if is_active || adsr.is_active() {
        source
    } else {
        VoiceSource::Idle
    }
}

// `Valid self` stays, as lib.rt says.
impl Voice {
    // len ticks, 256 at most, a sample asked for after each: what is given is in how many of them, the first ones, it gave a sample, which
    // the cells take from the front on, by the rule `whole` of gain 255.
    pub fn run(self, len: usize, whole: bool, samples: &mut [i8; 256]) -> Step<Voice, usize>
        requires { Valid self }
        ensures { VoiceBlock whole self (min len 256) samples.old result samples.new }
    {
        if len == 0 {
            return Step {
                voice: self,
                given: 0,
            };
        }
        let mut levels = [0; 256];
        let adsr = self.adsr.levels(len, &mut levels);
        let filled = self.source.fill(len, samples);
        let given = filled.given;
        shape(samples, &levels, self.gain_q8, whole, given);
        let n = tone::block_len(len);
        let source = keep(
            filled.voice,
            lasting(self.source.is_active(), given, n),
            adsr,
        );
        let voice = Voice {
            source,
            adsr,
            ..self
        };
        Step { voice, given }
    }

    // len ticks, 256 at most, with no sample asked for.
    pub fn rest(self, len: usize) -> Voice
        requires { Valid self }
        ensures { Made Valid (after ticked_voice (min len 256) self) result }
    {
        if len == 0 {
            return self;
        }
        let mut levels = [0; 256];
        let adsr = self.adsr.levels(len, &mut levels);
        let source = keep(self.source, self.source.is_active(), adsr);
        Voice {
            source,
            adsr,
            ..self
        }
    }
}
