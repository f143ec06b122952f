// The sound file as it is made; in a file of its own, since `file`'s clauses cite specs that name it.
ghost use Rattle.std.specs.Prelude.{◌≤◌};

use render_texts::Clock;
use std::fs::File;
use std::io;

// The file, its rate and frames so far, how many bytes are held back, and how the writing went. The bytes held back stand in a buffer of
// the run's, since std's BufWriter needs a heap.
#[derive(Clone, Copy)]
pub struct SoundFile<'a> {
    pub file: &'a File,
    pub clock: Clock,
    pub held: usize,
    pub written: io::Result<()>,
    ghost few: { held ≤ 65536 },
}
