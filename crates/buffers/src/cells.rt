// What a buffer is made of: cells of one kind, each a sample at the kind's scale.
ghost use Rattle.std.specs.Prelude.{◌≡◌, ℤ};
ghost use Rattle.output.specs.Levels.{raised};
ghost use Rattle.buffers.specs.Buffers.{to_i8, to_i16, to_i32};

pub trait Cell: Copy {
    ghost scaled: { ℤ → Self };

    fn of(sample: i8) -> Self
        ensures { result ≡ scaled sample };
}

impl Cell for i8 {
    ghost scaled = { to_i8 };

    fn of(sample: i8) -> i8 {
        sample
    }
}

impl Cell for i16 {
    ghost scaled = { to_i16 };

    fn of(sample: i8) -> i16 {
        output::pcm_to_i16(sample)
    }
}

impl Cell for i32 {
    ghost scaled = { to_i32 };

    fn of(sample: i8) -> i32 {
        output::pcm_to_i32(sample)
    }
}

impl Cell for u8 {
    ghost scaled = { raised };

    fn of(sample: i8) -> u8 {
        output::pcm_to_dac_u8(sample)
    }
}
