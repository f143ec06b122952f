// Buffers that the box that a script has open fills.
ghost use Rattle.replay_box.specs.Frames.{Fills, Levels};

use crate::OpenBox;
use buffers::{Cell, Level, Shape};

impl OpenBox {
    pub fn fill<C: Cell>(&mut self, bytes: &[u8], shape: Shape, out: &mut [C]) -> usize
        ensures { Fills C.scaled shape bytes.now self.old out.old result self.new out.new }
    {
        match self {
            OpenBox::Engine(e) => e.fill(shape, out),
            OpenBox::Sounder(s) => s.fill(bytes, shape, out),
        }
    }

    pub fn fill_u16(&mut self, bytes: &[u8], level: Level, out: &mut [u16]) -> usize
        ensures { Levels level bytes.now self.old out.old result self.new out.new }
    {
        match self {
            OpenBox::Engine(e) => e.fill_u16(level, out),
            OpenBox::Sounder(s) => s.fill_u16(bytes, level, out),
        }
    }
}
