// A list of play requests, ten bytes each.
ghost use Rattle.sounder.specs.Requests.{PlaysAll, PlaysEach};

use crate::Sounder;

impl Sounder {
    // Plays every request of the slice, one after another. Fewer than ten bytes at its end are no request.
    pub fn play_all(&mut self, bytes: &[u8], requests: &[u8])
        ensures { PlaysAll self.old bytes.now requests.now self.new }
    {
        self.play_each(bytes, requests, &mut []);
    }

    // The same, and each request's outcome in a cell of its own, as far as there are cells: the voice that it got, or 256 × its refusal's
    // number and 255.
    pub fn play_each(&mut self, bytes: &[u8], requests: &[u8], outcomes: &mut [u16])
        ensures { PlaysEach self.old bytes.now requests.now outcomes.old self.new outcomes.new }
    {
        let p = self.state.present;
        self.state.present = requests::play_each(p, bytes, requests, outcomes, true);
    }
}
