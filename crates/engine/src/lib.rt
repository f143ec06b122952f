// The box of document 01: its open calls over the mixer's parts. Its state is private, so that each engine comes from these calls; a clause sees
// that state in an engine's place.
#![tactic(auto)]

ghost use Rattle.std.specs.Prelude.{◌≡◌, length};
ghost use Rattle.error.specs.Told.{told};
ghost use Rattle.laws.specs.Made.{Made};
ghost use Rattle.allocate.specs.Allocation.{allocated, told_place};
ghost use Rattle.bank.specs.Banks.{payload_given, payload_part};
ghost use Rattle.bank.specs.Search.{found_given};
ghost use Rattle.frame.specs.Lasting.{frames_left};
ghost use Rattle.mixer.specs.Mixers as M;
ghost use Rattle.mixer.specs.Mixers.{Valid, ValidChanged};
ghost use Rattle.play.specs.Plays.{ValidPlayed, played, toned, poly_bleped};
ghost use Rattle.play.specs.Fades.{faded};
ghost use Rattle.engine.specs.Engines.{request_of};

use bank::EffectEntry;
use config::AudioConfig;
use envelope::AdsrSpec;
use error::AudioError;
use mixer::{Mixer, VoiceStealingPolicy};
use polyblep::PolyBlepWaveform;
use start::Request;
use std::marker::Model;
use tone::Waveform;
use voice::Voice;

pub mod fills;
mod lists;
mod opening;
pub mod ticks;

#[derive(Clone, Copy)]
pub struct AudioEngine {
    state: Mixer,
}

// "An engine .. handed in is one that these calls gave back": each is valid, so no call asks it.
impl Model for AudioEngine {
    ghost use Rattle.mixer.specs.declared.Mixer.{Mixer};
    ghost use Rattle.mixer.specs.Mixers.{Valid};

    ghost Value = { Mixer };

    ghost view = { λ e. e.state };

    ghost invariant = { λ e. Valid e.state };

    ghost inverse = { λ m. record { state = m } };
}

impl AudioEngine {
    // The engine is given where opening is refused too: one of no voices.
    pub fn open(
        n: usize,
        config: AudioConfig,
        policy: VoiceStealingPolicy,
    ) -> (AudioEngine, Result<(), AudioError>)
        ensures { Made ValidChanged (M.opened n config policy) (record { outcome = result.1; mixer = result.0 }) }
    {
        let c = Mixer::open(n, config, policy);
        (AudioEngine { state: c.mixer }, c.outcome)
    }

    // The state, to be looked at.
    pub fn state(&self) -> Mixer
        ensures { Made Valid self.now result }
    {
        self.state
    }

    pub fn config(&self) -> AudioConfig
        ensures { result ≡ self.now.config }
    {
        self.state.config
    }

    pub fn stealing_policy(&self) -> VoiceStealingPolicy
        ensures { result ≡ self.now.stealing_policy }
    {
        self.state.stealing_policy
    }

    pub fn voice_count(&self) -> usize
        ensures { result ≡ self.now.n }
    {
        self.state.n
    }

    pub fn active_voice_count(&self) -> usize
        ensures { result ≡ M.audible_count self.now }
    {
        self.state.active_voice_count()
    }

    pub fn is_playing(&self) -> bool
        ensures { result ≡ M.playing self.now }
    {
        self.state.is_playing()
    }

    pub fn voice(&self, idx: usize) -> Option<Voice>
        ensures { result ≡ M.voice_read self.now idx }
    {
        self.state.voice(idx)
    }

    pub fn voice_pan(&self, idx: usize) -> Option<u8>
        ensures { result ≡ M.pan_read self.now idx }
    {
        self.state.voice_pan(idx)
    }

    pub fn set_voice_pan(&mut self, idx: usize, pan_q8: u8)
        ensures { Made Valid (M.panned self.old idx pan_q8) self.new }
    {
        self.state = self.state.set_voice_pan(idx, pan_q8);
    }

    pub fn set_master_gain_q8(&mut self, gain: u8)
        ensures { Made Valid (M.with_master_gain self.old gain) self.new }
    {
        self.state = self.state.set_master_gain_q8(gain);
    }

    pub fn stop_all(&mut self)
        ensures { Made Valid (M.stopped self.old) self.new }
    {
        self.state = self.state.stop_all();
    }

    // The bank's bytes are those lent; each later call that reads the bank is lent them again.
    pub fn set_bank(
        &mut self,
        bytes: &[u8],
        sample_rate_hz: u32,
        effect_count: u16,
    ) -> Result<(), AudioError>
        ensures { Made ValidChanged (M.banked self.old sample_rate_hz effect_count (length bytes.now)) (record { outcome = result; mixer = self.new }) }
    {
        let c = self
            .state
            .set_bank(sample_rate_hz, effect_count, bytes.len());
        self.state = c.mixer;
        c.outcome
    }

    pub fn allocate_voice(&self, priority: u8) -> Option<usize>
        ensures { told_place result ≡ allocated self.now priority }
    {
        allocate::allocate_voice(self.state, priority)
    }

    pub fn find_by_id(&self, bytes: &[u8], id: u16) -> Result<EffectEntry, AudioError>
        ensures { told result ≡ found_given self.now.bank bytes.now id }
    {
        bank::find_by_id(self.state.bank, bytes, id)
    }

    pub fn payload_number(&self, bytes: &[u8], offset: u32, len: u32) -> Result<(), AudioError>
        ensures { told result ≡ payload_given self.now.bank bytes.now offset len }
    {
        bank::payload_number(self.state.bank, bytes, offset, len, false)
    }

    pub fn payload<'a>(&self, bytes: &'a [u8], offset: u32, len: u32) -> &'a [u8]
        ensures { result.now ≡ payload_part self.now.bank bytes.now offset len }
    {
        bank::payload(self.state.bank, bytes, offset, len)
    }

    pub fn play(
        &mut self,
        bytes: &[u8],
        effect_id: u16,
        adsr: AdsrSpec,
    ) -> Result<usize, AudioError>
        ensures { Made ValidPlayed (played self.old bytes.now (request_of effect_id adsr 128)) (record { outcome = result; mixer = self.new }) }
    {
        self.play_with_priority(bytes, effect_id, adsr, 128)
    }

    pub fn play_with_priority(
        &mut self,
        bytes: &[u8],
        effect_id: u16,
        adsr: AdsrSpec,
        priority: u8,
    ) -> Result<usize, AudioError>
        ensures { Made ValidPlayed (played self.old bytes.now (request_of effect_id adsr priority)) (record { outcome = result; mixer = self.new }) }
    {
        let request = Request {
            id: effect_id,
            adsr,
            priority,
        };
        let p = play::play_request(self.state, bytes, request);
        self.state = p.mixer;
        p.outcome
    }

    // A fade from voice 0 to the entry. Where it is accepted, it takes 255 / step frames, rounded up, step being
    // config::crossfade_step_q8 of the duration and the engine's rate: frames from this call on, mono or stereo in any order, also through
    // buffer calls. After fewer of them the fade is running; the frame of that number is the one in which voice 0 takes over, and after it the fade is
    // over. Other calls between the frames, refused ones among them, change nothing of that; a stop and another fade that is accepted do.
    // (specs/Steps.antt FadeTakes; fade_frames_left tells what is left.)
    pub fn crossfade_to(
        &mut self,
        bytes: &[u8],
        effect_id: u16,
        duration_ms: u16,
        adsr: AdsrSpec,
    ) -> Result<(), AudioError>
        ensures { Made ValidChanged (faded self.old bytes.now effect_id duration_ms adsr) (record { outcome = result; mixer = self.new }) }
    {
        let c = play::fades::crossfade_to(self.state, bytes, effect_id, duration_ms, adsr, false);
        self.state = c.mixer;
        c.outcome
    }

    // How many frames a fade has left, the one in which it ends among them; 0 where none is running.
    pub fn fade_frames_left(&self) -> u8
        ensures { result ≡ frames_left self.now }
    {
        frame::frames_left(self.state)
    }

    pub fn play_tone(&mut self, freq_hz: u32, duration_ms: u16, waveform: Waveform)
        ensures { Made Valid (toned self.old freq_hz duration_ms waveform) self.new }
    {
        self.state = play::play_tone(self.state, freq_hz, duration_ms, waveform);
    }

    pub fn play_polyblep(&mut self, freq_hz: u32, duration_ms: u16, waveform: PolyBlepWaveform)
        ensures { Made Valid (poly_bleped self.old freq_hz duration_ms waveform) self.new }
    {
        self.state = play::play_polyblep(self.state, freq_hz, duration_ms, waveform);
    }
}
