// The calls that start voices, and what then stands beside those.
ghost use Rattle.std.specs.Prelude.{◌≡◌, map};
ghost use Rattle.laws.specs.Made.{Made};
ghost use Rattle.entering.specs.Lined.{Valid};
ghost use Rattle.marks.specs.Marks.{Ordered};
ghost use Rattle.mixer.specs.Mixers as M;
ghost use Rattle.voice.specs.Voices.{audible};
ghost use Rattle.sounder.specs.Sounders.{Gives, request_of};
ghost use Rattle.sounder.specs.Calls.{played, fade_marks, faded_by, faded, faded_on, toned, poly_bleped};

use super::Sounder;
use envelope::AdsrSpec;
use error::AudioError;
use marks::{Marks, Present};
use mixer::Changed;
use polyblep::PolyBlepWaveform;
use start::Request;
use tone::Waveform;

// The flag is which of the two calls began the fade, as the box keeps it: nothing else is done by it.
fn fade_marks(outcome: Result<(), AudioError>, marks: Marks, sounds_on: bool) -> Marks
    ensures { result ≡ fade_marks sounds_on outcome marks }
{
    match outcome {
        Ok(()) => Marks {
            sounds_on,
            ..marks.started(1)
        },
        Err(_) => marks,
    }
}

impl Sounder {
    pub fn play(
        &mut self,
        bytes: &[u8],
        effect_id: u16,
        adsr: AdsrSpec,
    ) -> Result<usize, AudioError>
        ensures { Gives (played self.old bytes.now (request_of effect_id adsr 128)) result self.new }
    {
        self.play_with_priority(bytes, effect_id, adsr, 128)
    }

    pub fn play_with_priority(
        &mut self,
        bytes: &[u8],
        effect_id: u16,
        adsr: AdsrSpec,
        priority: u8,
    ) -> Result<usize, AudioError>
        ensures { Gives (played self.old bytes.now (request_of effect_id adsr priority)) result self.new }
    {
        let request = Request {
            id: effect_id,
            adsr,
            priority,
        };
        let q = requests::play_request(self.state.present, bytes, request);
        self.state.present = q.present;
        q.outcome
    }

    // What a fade's call made of the mixer, in its box.
    fn faded(&mut self, c: Changed, sounds_on: bool) -> Result<(), AudioError>
        requires { M.ValidChanged c × Ordered (map audible c.mixer.voices) (fade_marks sounds_on c.outcome self.old.present.marks).voices }
        ensures { Gives (faded_by sounds_on self.old c) result self.new }
    {
        let marks = fade_marks(c.outcome, self.state.present.marks, sounds_on);
        let begun = Present {
            mixer: c.mixer,
            marks,
        };
        self.state.present = begun.settled();
        c.outcome
    }

    // A fade from voice 0 to the entry, at whose end voice 0 is silent. Voice 0 is released before the entry start, so that a refusal there leaves it
    // released.
    // Where it is accepted, it takes 255 / step frames, rounded up, step being config::crossfade_step_q8 of the duration and the box's rate:
    // frames from this call on, mono or stereo in any order, also through buffer calls. After fewer of them the fade is running; the frame of
    // that number is the one in which voice 0 takes over, and after it the fade is over. Other calls between the frames, refused ones among
    // them, change nothing of that; a stop and another fade that is accepted do. (specs/Steps.antt FadeTakes; fade_frames_left tells what is
    // left.)
    pub fn crossfade_to(
        &mut self,
        bytes: &[u8],
        effect_id: u16,
        duration_ms: u16,
        adsr: AdsrSpec,
    ) -> Result<(), AudioError>
        ensures { Gives (faded self.old bytes.now effect_id duration_ms adsr) result self.new }
    {
        let m = self.state.present.mixer;
        let c = play::fades::crossfade_to(m, bytes, effect_id, duration_ms, adsr, true);
        self.faded(c, false)
    }

    // A fade from voice 0 to the entry whose sound goes on: at its end voice 0 takes voice 1's envelope too, as it is before that frame's tick, and its
    // samples from there on are those that voice 1's would have been (specs/Sounding.antt SoundsOn). Voice 1 is started before voice 0 is released, so
    // that a refusal changes nothing at all. It takes as many frames as the other fade.
    pub fn crossfade_sounding_on(
        &mut self,
        bytes: &[u8],
        effect_id: u16,
        duration_ms: u16,
        adsr: AdsrSpec,
    ) -> Result<(), AudioError>
        ensures { Gives (faded_on self.old bytes.now effect_id duration_ms adsr) result self.new }
    {
        let m = self.state.present.mixer;
        let c = play::fades::crossfade_sounding_on(m, bytes, effect_id, duration_ms, adsr);
        self.faded(c, true)
    }

    pub fn play_tone(&mut self, freq_hz: u32, duration_ms: u16, waveform: Waveform)
        ensures { Made Valid (toned self.old freq_hz duration_ms waveform) self.new }
    {
        let p = self.state.present;
        let mixer = play::play_tone(p.mixer, freq_hz, duration_ms, waveform);
        let marks = p.marks.started(0);
        let toned = Present { mixer, marks };
        self.state.present = toned.settled();
    }

    pub fn play_polyblep(&mut self, freq_hz: u32, duration_ms: u16, waveform: PolyBlepWaveform)
        ensures { Made Valid (poly_bleped self.old freq_hz duration_ms waveform) self.new }
    {
        let p = self.state.present;
        let mixer = play::play_polyblep(p.mixer, freq_hz, duration_ms, waveform);
        let marks = p.marks.started(0);
        let bleped = Present { mixer, marks };
        self.state.present = bleped.settled();
    }
}
