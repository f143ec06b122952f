// Why a call is turned down. The source's names where it has one; the others are added by the port (document 01's table), and by
// document 02's requests.
#![tactic(auto)]

ghost use Rattle.std.specs.Prelude.{◌≡◌};
ghost use Rattle.error.specs.Numbers.{number_of};

#[derive(Clone, Copy, Debug, PartialEq, Eq)]
pub enum AudioError {
    VoiceCount = 1,
    BadRate = 2,
    BadPeriod = 3,
    TruncatedBank = 4,
    VoiceBusy = 5,
    NoBank = 6,
    BankMismatch = 7,
    EffectNotFound = 8,
    InvalidEffectKind = 9,
    NotCarried = 10,
    BadSum = 11,
    LowRate = 12,
    BadEntries = 13,
    ShortBuffer = 14,
    BadOffset = 15,
    BadLength = 16,
    LineFull = 17,
    LabelWaiting = 18,
    NotWaiting = 19,
    NotCounted = 22,
}

impl From<AudioError> for u8 {
    ghost from_gives = { λ e number. number ≡ number_of e };

    fn from(e: AudioError) -> u8 {
        e as u8
    }
}
