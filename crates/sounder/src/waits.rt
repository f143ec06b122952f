// Requests that wait for a voice: "A caller may leave a request under a 16-bit label of its choosing, and withdraw it; up to 32 wait."
ghost use Rattle.std.specs.Prelude.{◌≡◌, length};
ghost use Rattle.sounder.specs.Calls.{left_in, withdrawn_in};
ghost use Rattle.sounder.specs.Sounders.{Gives, request_of};
ghost use Rattle.waiting.specs.Lines.{in_line, first_of, label_cells};

use crate::Sounder;
use envelope::AdsrSpec;
use error::AudioError;
use start::Request;
use waiting::Waiting;

impl Sounder {
    // Leaves a request under a label; it is not tried. It goes in at the start of a frame at which a voice is free and none of higher priority waits, nor
    // an earlier one of the same.
    pub fn leave(
        &mut self,
        label: u16,
        effect_id: u16,
        adsr: AdsrSpec,
        priority: u8,
    ) -> Result<(), AudioError>
        ensures { Gives (left_in self.old label (request_of effect_id adsr priority)) result self.new }
    {
        let request = Request {
            id: effect_id,
            adsr,
            priority,
        };
        let c = self.state.line.leave(label, request);
        self.state.line = c.line;
        c.outcome
    }

    pub fn withdraw(&mut self, label: u16) -> Result<(), AudioError>
        ensures { Gives (withdrawn_in self.old label) result self.new }
    {
        let c = self.state.line.withdraw(label);
        self.state.line = c.line;
        c.outcome
    }

    pub fn waiting_count(&self) -> usize
        ensures count { result ≡ self.now.line.count }
        ensures whole { result ≡ length (in_line self.now.line) }
    {
        self.state.line.count
    }

    // The labels that wait, next first, in the first `waiting_count` cells; 0 in the others.
    pub fn waiting_labels(&self) -> [u16; 32]
        ensures { result ≡ label_cells (in_line self.now.line) }
    {
        self.state.line.labels()
    }

    // The next in line, whether or not a voice is free.
    pub fn next_in_line(&self) -> Option<Waiting>
        ensures { result ≡ first_of (in_line self.now.line) }
    {
        self.state.line.next()
    }

    // Why the latest request that was dropped was refused, and its label. Only the next that is dropped changes it.
    pub fn kept_refusal(&self) -> Option<(AudioError, u16)>
        ensures { result ≡ self.now.kept }
    {
        self.state.kept
    }
}
