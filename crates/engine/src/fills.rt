// The buffer calls: document 01's state, lifted to one of the present rules, makes its own frames.
ghost use Rattle.buffers.specs.Buffers.{FillsAll, FillsPairs, to_i8, to_i16, to_i32, to_u12, to_u16, once, doubled, sides};
ghost use Rattle.buffers.specs.Shapes.{FillsBy, level_step, level_of};
ghost use Rattle.frame.specs.Runs.{mono_step, duty_step, duties, stereo_step};
ghost use Rattle.output.specs.Levels.{raised};
ghost use Rattle.engine.specs.Fills.{filled_in};

use crate::AudioEngine;
use buffers::{Cell, Level, Shape};
use marks::Present;

impl AudioEngine {
    // A buffer of cells of any kind, by the shape of its frames.
    pub fn fill<C: Cell>(&mut self, shape: Shape, out: &mut [C]) -> usize
        ensures { FillsBy C.scaled shape self.old out.old (filled_in self.new result) out.new }
    {
        let f = buffers::fill(Present::lifted(self.state), shape, out);
        self.state = f.state.mixer;
        f.filled
    }

    pub fn fill_u16(&mut self, level: Level, out: &mut [u16]) -> usize
        ensures { FillsAll (level_step level) (level_of level) self.old out.old (filled_in self.new result) out.new }
    {
        let f = buffers::fill_u16(Present::lifted(self.state), level, out);
        self.state = f.state.mixer;
        f.filled
    }

    pub fn fill_duty_buffer(&mut self, out: &mut [u16]) -> usize
        ensures { FillsAll duty_step duties self.old out.old (filled_in self.new result) out.new }
    {
        self.fill_u16(Level::Duty, out)
    }

    pub fn fill_pcm_i8_buffer(&mut self, out: &mut [i8]) -> usize
        ensures { FillsAll mono_step (once to_i8) self.old out.old (filled_in self.new result) out.new }
    {
        self.fill(Shape::Once, out)
    }

    pub fn fill_pcm_i16_buffer(&mut self, out: &mut [i16]) -> usize
        ensures { FillsAll mono_step (once to_i16) self.old out.old (filled_in self.new result) out.new }
    {
        self.fill(Shape::Once, out)
    }

    pub fn fill_pcm_i32_buffer(&mut self, out: &mut [i32]) -> usize
        ensures { FillsAll mono_step (once to_i32) self.old out.old (filled_in self.new result) out.new }
    {
        self.fill(Shape::Once, out)
    }

    pub fn fill_dac_u8_buffer(&mut self, out: &mut [u8]) -> usize
        ensures { FillsAll mono_step (once raised) self.old out.old (filled_in self.new result) out.new }
    {
        self.fill(Shape::Once, out)
    }

    pub fn fill_dac_u12_buffer(&mut self, out: &mut [u16]) -> usize
        ensures { FillsAll mono_step (once to_u12) self.old out.old (filled_in self.new result) out.new }
    {
        self.fill_u16(Level::U12, out)
    }

    pub fn fill_dac_u16_buffer(&mut self, out: &mut [u16]) -> usize
        ensures { FillsAll mono_step (once to_u16) self.old out.old (filled_in self.new result) out.new }
    {
        self.fill_u16(Level::U16, out)
    }

    pub fn fill_stereo_i16_buffer(&mut self, out: &mut [i16]) -> usize
        ensures { FillsPairs mono_step (doubled to_i16) self.old out.old (filled_in self.new result) out.new }
    {
        self.fill(Shape::Doubled, out)
    }

    pub fn fill_stereo_i32_buffer(&mut self, out: &mut [i32]) -> usize
        ensures { FillsPairs mono_step (doubled to_i32) self.old out.old (filled_in self.new result) out.new }
    {
        self.fill(Shape::Doubled, out)
    }

    pub fn fill_stereo_panned_i16_buffer(&mut self, out: &mut [i16]) -> usize
        ensures { FillsPairs stereo_step (sides to_i16) self.old out.old (filled_in self.new result) out.new }
    {
        self.fill(Shape::Sides, out)
    }

    pub fn fill_stereo_panned_i8_buffer(&mut self, out: &mut [i8]) -> usize
        ensures { FillsPairs stereo_step (sides to_i8) self.old out.old (filled_in self.new result) out.new }
    {
        self.fill(Shape::Sides, out)
    }
}
