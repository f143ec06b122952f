// A list of play requests, ten bytes each.
ghost use Rattle.engine.specs.Requests.{PlaysAll, PlaysEach};

use crate::AudioEngine;
use marks::Present;

impl AudioEngine {
    // Plays every request of the slice, one after another. Fewer than ten bytes at its end are no request.
    // As `sounder` has it: a trait that gave it to both would have the player and what is valid for ghost members, and be longer than this line.
    pub fn play_all(&mut self, bytes: &[u8], requests: &[u8])
        ensures { PlaysAll self.old bytes.now requests.now self.new }
    {
        self.play_each(bytes, requests, &mut []);
    }

    // The same, and each request's outcome in a cell of its own, as far as there are cells: the voice that it got, or 256 × its refusal's
    // number and 255.
    pub fn play_each(&mut self, bytes: &[u8], requests: &[u8], outcomes: &mut [u16])
        ensures { PlaysEach self.old bytes.now requests.now outcomes.old self.new outcomes.new }
    {
        let lifted = Present::lifted(self.state);
        let p = requests::play_each(lifted, bytes, requests, outcomes, false);
        self.state = p.mixer;
    }
}
