// The kinds of effect, by the byte that a bank's entry holds.
#![tactic(auto)]

ghost use Rattle.std.specs.Prelude.{◌≡◌};
ghost use Rattle.error.specs.Told.{told};
ghost use Rattle.tier.specs.Kinds.{kind_of, byte_of};

use error::AudioError;

pub mod flags;

#[derive(Clone, Copy, Debug, PartialEq, Eq)]
pub enum EffectKind {
    Tone = 0,
    Wavetable = 1,
    Fm = 2,
    Pcm8 = 3,
    Adpcm = 4,
    SigmaDeltaBits = 5,
}

// What a kind byte stands for.
impl TryFrom<u8> for EffectKind {
    type Error = AudioError;

    ghost try_from_gives = { λ v r. told r ≡ kind_of v };

    #[tactic(auto, unfolding(crate::specs::Kinds::kind_of))]
    fn try_from(v: u8) -> Result<EffectKind, AudioError> {
        match v {
            0 => Ok(EffectKind::Tone),
            1 => Ok(EffectKind::Wavetable),
            2 => Ok(EffectKind::Fm),
            3 => Ok(EffectKind::Pcm8),
            4 => Ok(EffectKind::Adpcm),
            5 => Ok(EffectKind::SigmaDeltaBits),
            _ => Err(AudioError::InvalidEffectKind),
        }
    }
}

// The source's `kind as u8`.
impl From<EffectKind> for u8 {
    ghost from_gives = { λ kind byte. byte ≡ byte_of kind };

    fn from(kind: EffectKind) -> u8 {
        kind as u8
    }
}
