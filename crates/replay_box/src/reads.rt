// What a script asks of the box that it has open.
ghost use Rattle.std.specs.Prelude.{◌≡◌, length};
ghost use Rattle.error.specs.Told.{told};
ghost use Rattle.laws.specs.Made.{Made};
ghost use Rattle.allocate.specs.Allocation.{told_place};
ghost use Rattle.bank.specs.Banks.{payload_under, payload_part};
ghost use Rattle.bank.specs.Search.{found_given};
ghost use Rattle.frame.specs.Lasting.{frames_left};
ghost use Rattle.mixer.specs.Mixers as M;
ghost use Rattle.mixer.specs.Mixers.{Valid};
ghost use Rattle.replay_box.specs.Boxes.{is_present, mixer_of, place_in, ranks_of, waiting_in, kept_in};
ghost use Rattle.waiting.specs.Lines.{first_of, label_cells};

use crate::OpenBox;
use bank::EffectEntry;
use config::AudioConfig;
use error::AudioError;
use mixer::{Mixer, VoiceStealingPolicy};
use voice::Voice;
use waiting::Waiting;

impl OpenBox {
    // The state, to be looked at.
    #[tactic(auto, unfolding(crate::specs::Boxes::mixer_of))]
    pub fn state(&self) -> Mixer
        ensures { Made Valid (mixer_of self.now) result }
    {
        match self {
            OpenBox::Engine(e) => e.state(),
            OpenBox::Sounder(s) => s.state().mixer,
        }
    }

    // Whether it is one of the present rules.
    pub fn is_present(&self) -> bool
        ensures { result ≡ is_present self.now }
    {
        matches!(self, OpenBox::Sounder(_))
    }

    #[tactic(auto, unfolding(crate::specs::Boxes::mixer_of))]
    pub fn voice(&self, idx: usize) -> Option<Voice>
        ensures { result ≡ M.voice_read (mixer_of self.now) idx }
    {
        match self {
            OpenBox::Engine(e) => e.voice(idx),
            OpenBox::Sounder(s) => s.voice(idx),
        }
    }

    #[tactic(auto, unfolding(crate::specs::Boxes::mixer_of))]
    pub fn voice_pan(&self, idx: usize) -> Option<u8>
        ensures { result ≡ M.pan_read (mixer_of self.now) idx }
    {
        match self {
            OpenBox::Engine(e) => e.voice_pan(idx),
            OpenBox::Sounder(s) => s.voice_pan(idx),
        }
    }

    #[tactic(auto, unfolding(crate::specs::Boxes::mixer_of))]
    pub fn voice_count(&self) -> usize
        ensures { result ≡ (mixer_of self.now).n }
    {
        match self {
            OpenBox::Engine(e) => e.voice_count(),
            OpenBox::Sounder(s) => s.voice_count(),
        }
    }

    #[tactic(auto, unfolding(crate::specs::Boxes::mixer_of))]
    pub fn active_voice_count(&self) -> usize
        ensures { result ≡ M.audible_count (mixer_of self.now) }
    {
        match self {
            OpenBox::Engine(e) => e.active_voice_count(),
            OpenBox::Sounder(s) => s.active_voice_count(),
        }
    }

    #[tactic(auto, unfolding(crate::specs::Boxes::mixer_of))]
    pub fn is_playing(&self) -> bool
        ensures { result ≡ M.playing (mixer_of self.now) }
    {
        match self {
            OpenBox::Engine(e) => e.is_playing(),
            OpenBox::Sounder(s) => s.is_playing(),
        }
    }

    #[tactic(auto, unfolding(crate::specs::Boxes::mixer_of))]
    pub fn fade_frames_left(&self) -> u8
        ensures { result ≡ frames_left (mixer_of self.now) }
    {
        match self {
            OpenBox::Engine(e) => e.fade_frames_left(),
            OpenBox::Sounder(s) => s.fade_frames_left(),
        }
    }

    #[tactic(auto, unfolding(crate::specs::Boxes::place_in))]
    pub fn allocate_voice(&self, priority: u8) -> Option<usize>
        ensures { told_place result ≡ place_in self.now priority }
    {
        match self {
            OpenBox::Engine(e) => e.allocate_voice(priority),
            OpenBox::Sounder(s) => s.allocate_voice(priority),
        }
    }

    // The rank of each voice, 255 for one that has none.
    #[tactic(auto, unfolding(crate::specs::Boxes::ranks_of))]
    pub fn ranks(&self) -> [u8; 16]
        ensures { result ≡ ranks_of self.now }
    {
        match self {
            OpenBox::Engine(_) => [255; 16],
            OpenBox::Sounder(s) => s.ranks(),
        }
    }

    #[tactic(auto, unfolding(crate::specs::Boxes::mixer_of))]
    pub fn find_by_id(&self, bytes: &[u8], id: u16) -> Result<EffectEntry, AudioError>
        ensures { told result ≡ found_given (mixer_of self.now).bank bytes.now id }
    {
        match self {
            OpenBox::Engine(e) => e.find_by_id(bytes, id),
            OpenBox::Sounder(s) => s.find_by_id(bytes, id),
        }
    }

    #[tactic(auto, unfolding(crate::specs::Boxes::mixer_of))]
    pub fn payload_number(&self, bytes: &[u8], offset: u32, len: u32) -> Result<(), AudioError>
        ensures { told result ≡ payload_under (is_present self.now) (mixer_of self.now).bank bytes.now offset len }
    {
        match self {
            OpenBox::Engine(e) => e.payload_number(bytes, offset, len),
            OpenBox::Sounder(s) => s.payload_number(bytes, offset, len),
        }
    }

    #[tactic(auto, unfolding(crate::specs::Boxes::mixer_of))]
    pub fn payload<'a>(&self, bytes: &'a [u8], offset: u32, len: u32) -> &'a [u8]
        ensures { result.now ≡ payload_part (mixer_of self.now).bank bytes.now offset len }
    {
        match self {
            OpenBox::Engine(e) => e.payload(bytes, offset, len),
            OpenBox::Sounder(s) => s.payload(bytes, offset, len),
        }
    }

    #[tactic(auto, unfolding(crate::specs::Boxes::mixer_of))]
    pub fn config(&self) -> AudioConfig
        ensures { result ≡ (mixer_of self.now).config }
    {
        match self {
            OpenBox::Engine(e) => e.config(),
            OpenBox::Sounder(s) => s.config(),
        }
    }

    #[tactic(auto, unfolding(crate::specs::Boxes::mixer_of))]
    pub fn stealing_policy(&self) -> VoiceStealingPolicy
        ensures { result ≡ (mixer_of self.now).stealing_policy }
    {
        match self {
            OpenBox::Engine(e) => e.stealing_policy(),
            OpenBox::Sounder(s) => s.stealing_policy(),
        }
    }

    // Requests that wait: in document 01's box there are none.
    #[tactic(auto, unfolding(crate::specs::Boxes::waiting_in))]
    pub fn waiting_count(&self) -> usize
        ensures { result ≡ length (waiting_in self.now) }
    {
        match self {
            OpenBox::Engine(_) => 0,
            OpenBox::Sounder(s) => s.waiting_count(),
        }
    }

    // The labels that wait, next first; 0 in the cells past them.
    #[tactic(auto, unfolding(crate::specs::Boxes::waiting_in))]
    pub fn waiting_labels(&self) -> [u16; 32]
        ensures { result ≡ label_cells (waiting_in self.now) }
    {
        match self {
            OpenBox::Engine(_) => [0; 32],
            OpenBox::Sounder(s) => s.waiting_labels(),
        }
    }

    #[tactic(auto, unfolding(crate::specs::Boxes::waiting_in))]
    pub fn next_in_line(&self) -> Option<Waiting>
        ensures { result ≡ first_of (waiting_in self.now) }
    {
        match self {
            OpenBox::Engine(_) => None,
            OpenBox::Sounder(s) => s.next_in_line(),
        }
    }

    #[tactic(auto, unfolding(crate::specs::Boxes::kept_in))]
    pub fn kept_refusal(&self) -> Option<(AudioError, u16)>
        ensures { result ≡ kept_in self.now }
    {
        match self {
            OpenBox::Engine(_) => None,
            OpenBox::Sounder(s) => s.kept_refusal(),
        }
    }
}
