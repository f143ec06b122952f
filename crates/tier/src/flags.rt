// The bits of an entry's flags byte. No call here reads them: what they ask for belongs to stored samples.
ghost use Rattle.std.specs.Prelude.{◌≡◌};
ghost use Rattle.tier.specs.Kinds.{flag_bits};

pub const LOOP: u8 = 1 << 0;

pub const ONE_SHOT: u8 = 1 << 1;

pub const SIGNED: u8 = 1 << 2;

#[derive(Clone, Copy, Debug, PartialEq, Eq)]
pub struct Bits {
    pub looped: u8,
    pub one_shot: u8,
    pub signed: u8,
}

// All three, by which their values are fixed.
pub fn all() -> Bits
    ensures { result ≡ flag_bits }
{
    Bits {
        looped: LOOP,
        one_shot: ONE_SHOT,
        signed: SIGNED,
    }
}
