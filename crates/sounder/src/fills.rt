// The buffer calls: how many cells were written. Each is lent the bank's bytes, for requests that wait: they go in at the start of a frame.
ghost use Rattle.buffers.specs.Buffers.{to_i8, to_i16, to_i32};
ghost use Rattle.buffers.specs.declared.Level.TheVariants.{Duty, U12, U16};
ghost use Rattle.buffers.specs.declared.Shape.TheVariants.{Once, Doubled, Sides};
ghost use Rattle.output.specs.Levels.{raised};
ghost use Rattle.sounder.specs.Frames.{Fills, Levels};

use crate::Sounder;
use buffers::{Cell, Level, Shape};

impl Sounder {
    pub fn fill<C: Cell>(&mut self, bytes: &[u8], shape: Shape, out: &mut [C]) -> usize
        ensures { Fills C.scaled shape bytes.now self.old out.old result self.new out.new }
    {
        let f = filling::fill(self.state, bytes, shape, out);
        self.state = f.lined;
        f.filled
    }

    pub fn fill_u16(&mut self, bytes: &[u8], level: Level, out: &mut [u16]) -> usize
        ensures { Levels level bytes.now self.old out.old result self.new out.new }
    {
        let f = filling::fill_u16(self.state, bytes, level, out);
        self.state = f.lined;
        f.filled
    }

    pub fn fill_duty_buffer(&mut self, bytes: &[u8], out: &mut [u16]) -> usize
        ensures { Levels Duty bytes.now self.old out.old result self.new out.new }
    {
        self.fill_u16(bytes, Level::Duty, out)
    }

    pub fn fill_pcm_i8_buffer(&mut self, bytes: &[u8], out: &mut [i8]) -> usize
        ensures { Fills to_i8 Once bytes.now self.old out.old result self.new out.new }
    {
        self.fill(bytes, Shape::Once, out)
    }

    pub fn fill_pcm_i16_buffer(&mut self, bytes: &[u8], out: &mut [i16]) -> usize
        ensures { Fills to_i16 Once bytes.now self.old out.old result self.new out.new }
    {
        self.fill(bytes, Shape::Once, out)
    }

    pub fn fill_pcm_i32_buffer(&mut self, bytes: &[u8], out: &mut [i32]) -> usize
        ensures { Fills to_i32 Once bytes.now self.old out.old result self.new out.new }
    {
        self.fill(bytes, Shape::Once, out)
    }

    pub fn fill_dac_u8_buffer(&mut self, bytes: &[u8], out: &mut [u8]) -> usize
        ensures { Fills raised Once bytes.now self.old out.old result self.new out.new }
    {
        self.fill(bytes, Shape::Once, out)
    }

    pub fn fill_dac_u12_buffer(&mut self, bytes: &[u8], out: &mut [u16]) -> usize
        ensures { Levels U12 bytes.now self.old out.old result self.new out.new }
    {
        self.fill_u16(bytes, Level::U12, out)
    }

    pub fn fill_dac_u16_buffer(&mut self, bytes: &[u8], out: &mut [u16]) -> usize
        ensures { Levels U16 bytes.now self.old out.old result self.new out.new }
    {
        self.fill_u16(bytes, Level::U16, out)
    }

    pub fn fill_stereo_i16_buffer(&mut self, bytes: &[u8], out: &mut [i16]) -> usize
        ensures { Fills to_i16 Doubled bytes.now self.old out.old result self.new out.new }
    {
        self.fill(bytes, Shape::Doubled, out)
    }

    pub fn fill_stereo_i32_buffer(&mut self, bytes: &[u8], out: &mut [i32]) -> usize
        ensures { Fills to_i32 Doubled bytes.now self.old out.old result self.new out.new }
    {
        self.fill(bytes, Shape::Doubled, out)
    }

    pub fn fill_stereo_panned_i16_buffer(&mut self, bytes: &[u8], out: &mut [i16]) -> usize
        ensures { Fills to_i16 Sides bytes.now self.old out.old result self.new out.new }
    {
        self.fill(bytes, Shape::Sides, out)
    }

    pub fn fill_stereo_panned_i8_buffer(&mut self, bytes: &[u8], out: &mut [i8]) -> usize
        ensures { Fills to_i8 Sides bytes.now self.old out.old result self.new out.new }
    {
        self.fill(bytes, Shape::Sides, out)
    }
}
