// The box of the present rules: its open calls over the mixer's parts. Its state is private, so that each box comes from these calls; a clause sees
// that state in a box's place.
#![tactic(auto)]

ghost use Rattle.std.specs.Prelude.{◌≡◌, true, length, map};
ghost use Rattle.error.specs.Told.{told};
ghost use Rattle.laws.specs.Made.{Made};
ghost use Rattle.allocate.specs.Allocation.{allocated_oldest, told_place};
ghost use Rattle.bank.specs.Banks.{payload_under, payload_part};
ghost use Rattle.bank.specs.Search.{found_given};
ghost use Rattle.entering.specs.Lined.{Valid};
ghost use Rattle.frame.specs.Lasting.{frames_left};
ghost use Rattle.marks.specs.Marks as K;
ghost use Rattle.mixer.specs.Mixers as M;
ghost use Rattle.sounder.specs.Sounders.{Gives};
ghost use Rattle.sounder.specs.Calls.{opened, panned, with_master_gain, stopped, bank_marks, banked, ranks_in};

use bank::EffectEntry;
use config::AudioConfig;
use entering::Lined;
use error::AudioError;
use marks::{Mark, Marks, Present};
use mixer::{Mixer, VoiceStealingPolicy};
use std::marker::Model;
use voice::Voice;
use waiting::Line;

pub mod fills;
mod lists;
mod opening;
pub mod starts;
pub mod ticks;
mod waits;

#[derive(Clone, Copy)]
pub struct Sounder {
    state: Lined,
}

// A box that is handed in is one that these calls gave back: each is valid, so no call asks it.
impl Model for Sounder {
    ghost use Rattle.entering.specs.Lined.{Valid};
    ghost use Rattle.entering.specs.declared.Lined.{Lined};

    ghost Value = { Lined };

    ghost view = { λ s. s.state };

    ghost invariant = { λ s. Valid s.state };

    ghost inverse = { λ s. record { state = s } };
}

fn bank_marks(outcome: Result<(), AudioError>, marks: Marks) -> Marks
    ensures { result ≡ bank_marks outcome marks }
{
    match outcome {
        Ok(()) => Marks::none(marks.master, marks.sounds_on),
        Err(_) => marks,
    }
}

fn ranks_of(marks: [Mark; 16]) -> [u8; 16]
    ensures { result ≡ map (λ k. k.rank) marks }
{
    marks.map(|k| k.rank)
}

impl Sounder {
    // The box is given where opening is refused too: one of no voices.
    pub fn open(
        n: usize,
        config: AudioConfig,
        policy: VoiceStealingPolicy,
    ) -> (Sounder, Result<(), AudioError>)
        ensures { Gives (opened n config policy) result.1 result.0 }
    {
        let c = Mixer::open(n, config, policy);
        let present = Present {
            mixer: c.mixer,
            marks: Marks::none(true, false),
        };
        let state = Lined {
            present,
            line: Line::empty(),
            kept: None,
        };
        (Sounder { state }, c.outcome)
    }

    // The state, to be looked at.
    pub fn state(&self) -> Present
        ensures { Made K.Valid self.now.present result }
    {
        self.state.present
    }

    pub fn config(&self) -> AudioConfig
        ensures { result ≡ self.now.present.mixer.config }
    {
        self.state.present.mixer.config
    }

    pub fn stealing_policy(&self) -> VoiceStealingPolicy
        ensures { result ≡ self.now.present.mixer.stealing_policy }
    {
        self.state.present.mixer.stealing_policy
    }

    pub fn voice_count(&self) -> usize
        ensures { result ≡ self.now.present.mixer.n }
    {
        self.state.present.mixer.n
    }

    pub fn active_voice_count(&self) -> usize
        ensures { result ≡ M.audible_count self.now.present.mixer }
    {
        self.state.present.mixer.active_voice_count()
    }

    pub fn is_playing(&self) -> bool
        ensures { result ≡ M.playing self.now.present.mixer }
    {
        self.state.present.mixer.is_playing()
    }

    pub fn voice(&self, idx: usize) -> Option<Voice>
        ensures { result ≡ M.voice_read self.now.present.mixer idx }
    {
        self.state.present.mixer.voice(idx)
    }

    // The rank of each voice among the audible ones, by when it was started: 0 the oldest, 255 for a voice that is inaudible.
    pub fn ranks(&self) -> [u8; 16]
        ensures { result ≡ ranks_in self.now }
    {
        ranks_of(self.state.present.marks.voices)
    }

    pub fn voice_pan(&self, idx: usize) -> Option<u8>
        ensures { result ≡ M.pan_read self.now.present.mixer idx }
    {
        self.state.present.mixer.voice_pan(idx)
    }

    pub fn set_voice_pan(&mut self, idx: usize, pan_q8: u8)
        ensures { Made Valid (panned self.old idx pan_q8) self.new }
    {
        let m = self.state.present.mixer;
        self.state.present.mixer = m.set_voice_pan(idx, pan_q8);
    }

    pub fn set_master_gain_q8(&mut self, gain: u8)
        ensures { Made Valid (with_master_gain self.old gain) self.new }
    {
        let m = self.state.present.mixer;
        self.state.present.mixer = m.set_master_gain_q8(gain);
    }

    pub fn stop_all(&mut self)
        ensures { Made Valid (stopped self.old) self.new }
    {
        let p = self.state.present;
        let mixer = p.mixer.stop_all();
        let marks = Marks::none(true, p.marks.sounds_on);
        self.state.present = Present { mixer, marks };
    }

    // The bank's bytes are those lent; each later call that reads the bank is lent them again.
    pub fn set_bank(
        &mut self,
        bytes: &[u8],
        sample_rate_hz: u32,
        effect_count: u16,
    ) -> Result<(), AudioError>
        ensures { Gives (banked self.old sample_rate_hz effect_count (length bytes.now)) result self.new }
    {
        let p = self.state.present;
        let c = p.mixer.set_bank(sample_rate_hz, effect_count, bytes.len());
        let marks = bank_marks(c.outcome, p.marks);
        self.state.present = Present {
            mixer: c.mixer,
            marks,
        };
        c.outcome
    }

    pub fn allocate_voice(&self, priority: u8) -> Option<usize>
        ensures { told_place result ≡ allocated_oldest self.now.present priority }
    {
        allocate::allocate_oldest(self.state.present, priority)
    }

    pub fn find_by_id(&self, bytes: &[u8], id: u16) -> Result<EffectEntry, AudioError>
        ensures { told result ≡ found_given self.now.present.mixer.bank bytes.now id }
    {
        bank::find_by_id(self.state.present.mixer.bank, bytes, id)
    }

    pub fn payload_number(&self, bytes: &[u8], offset: u32, len: u32) -> Result<(), AudioError>
        ensures { told result ≡ payload_under true self.now.present.mixer.bank bytes.now offset len }
    {
        bank::payload_number(self.state.present.mixer.bank, bytes, offset, len, true)
    }

    pub fn payload<'a>(&self, bytes: &'a [u8], offset: u32, len: u32) -> &'a [u8]
        ensures { result.now ≡ payload_part self.now.present.mixer.bank bytes.now offset len }
    {
        bank::payload(self.state.present.mixer.bank, bytes, offset, len)
    }

    // How many frames a fade has left, the one in which it ends among them; 0 where none is running.
    pub fn fade_frames_left(&self) -> u8
        ensures { result ≡ frames_left self.now.present.mixer }
    {
        frame::frames_left(self.state.present.mixer)
    }
}
