// The records of an open box: each makes its call and says what is answered.
#![tactic(auto)]

ghost use Rattle.std.specs.Prelude.{◌≡◌, ◌&&◌, leb};
ghost use Rattle.error.specs.Told.{told};
ghost use Rattle.hex_digits.specs.Hex.{byte_at};
ghost use Rattle.allocate.specs.Allocation.{told_place};
ghost use Rattle.replay_calls.specs.Calls.{sized_as, record_of, allowed, outcome_reply, play_reply, bank_call, play_call, fade_call, tone_call, poly_blep_call, pan_call, gain_call, stop_call, entry_reply, search_reply, place_reply, allocate_reply, audible_reply, stereo_call, duty_call, plain_play_call, pan_reply, pan_read_reply, sample_call, wide_stereo_call, fade_on_call, fade_left_reply, ranks_reply, call_for, called};

use bank::EffectEntry;
use error::AudioError;
use hex_digits::{byte_at, long_at, wide_at};
use replay_box::OpenBox;
use replay_fields::{flag_number, polyblep_waveform, spec_at, tone_waveform};

// What is answered: that the line is bad, nothing, one number or two, a number of four digits or two of them, a number and a label of four digits, an
// entry, the part of the bank that was asked for, the state, the policy, the configuration, the voice at an index, the ranks, the labels that wait.
#[derive(Clone, Copy)]
pub enum Reply {
    Bad,
    Nothing,
    Number(u64),
    Two(u64, u64),
    Wide(u64),
    WideTwo(u64, u64),
    Labelled(u64, u64),
    Entry(EffectEntry),
    Payload,
    Dump,
    Policy,
    Configuration,
    Voice(u8),
    Ranks,
    Waiting,
}

// The records, in the order of their codes.
#[derive(Clone, Copy, Debug, PartialEq, Eq)]
pub enum Record {
    Bank,
    Play,
    Fade,
    Tone,
    PolyBlep,
    Pan,
    Gain,
    Stop,
    Search,
    Payload,
    Allocate,
    Audible,
    Stereo,
    Duty,
    Dump,
    PlainPlay,
    PanRead,
    Policy,
    Configuration,
    Sample,
    Pwm,
    WideStereo,
    Voice,
    FadeOn,
    FadeLeft,
    Ranks,
}

pub fn outcome_reply(o: Result<(), AudioError>) -> Reply
    ensures { result ≡ outcome_reply o }
{
    match o {
        Ok(()) => Reply::Number(0),
        Err(e) => Reply::Number(u64::from(u8::from(e))),
    }
}

fn play_reply(o: Result<usize, AudioError>) -> Reply
    ensures { result ≡ play_reply o }
{
    match o {
        Ok(i) => Reply::Two(0, i as u64),
        Err(e) => Reply::Two(u64::from(u8::from(e)), 0xff),
    }
}

fn entry_reply(r: Result<EffectEntry, AudioError>) -> Reply
    ensures { result ≡ entry_reply (told r) }
{
    match r {
        Ok(entry) => Reply::Entry(entry),
        Err(e) => Reply::Number(u64::from(u8::from(e))),
    }
}

fn allocated_reply(a: Option<usize>) -> Reply
    ensures { result ≡ place_reply (told_place a) }
{
    match a {
        Some(i) => Reply::Two(0, i as u64),
        None => Reply::Two(5, 0xff),
    }
}

#[tactic(auto, unfolding(crate::specs::Calls::bank_call))]
fn bank_call(l: &[u8], bytes: &[u8], e: &mut OpenBox) -> Reply
    ensures { record { held = e.new; gave = result } ≡ bank_call l.now bytes.now e.old }
{
    outcome_reply(e.set_bank(bytes, long_at(l, 1), wide_at(l, 5)))
}

#[tactic(auto, unfolding(crate::specs::Calls::play_call))]
fn play_call(l: &[u8], bytes: &[u8], e: &mut OpenBox) -> Reply
    ensures { record { held = e.new; gave = result } ≡ play_call l.now bytes.now e.old }
{
    let adsr = spec_at(l, 3);
    play_reply(e.play_with_priority(bytes, wide_at(l, 1), adsr, byte_at(l, 10)))
}

#[tactic(auto, unfolding(crate::specs::Calls::fade_call))]
fn fade_call(l: &[u8], bytes: &[u8], e: &mut OpenBox) -> Reply
    ensures { record { held = e.new; gave = result } ≡ fade_call l.now bytes.now e.old }
{
    let adsr = spec_at(l, 5);
    outcome_reply(e.crossfade_to(bytes, wide_at(l, 1), wide_at(l, 3), adsr))
}

#[tactic(auto, unfolding(crate::specs::Calls::tone_call))]
fn tone_call(l: &[u8], e: &mut OpenBox) -> Reply
    ensures { record { held = e.new; gave = result } ≡ tone_call l.now e.old }
{
    let waveform = tone_waveform(byte_at(l, 7));
    e.play_tone(long_at(l, 1), wide_at(l, 5), waveform);
    Reply::Nothing
}

#[tactic(auto, unfolding(crate::specs::Calls::poly_blep_call))]
fn polyblep_call(l: &[u8], e: &mut OpenBox) -> Reply
    ensures { record { held = e.new; gave = result } ≡ poly_blep_call l.now e.old }
{
    let waveform = polyblep_waveform(byte_at(l, 7));
    e.play_polyblep(long_at(l, 1), wide_at(l, 5), waveform);
    Reply::Nothing
}

#[tactic(auto, unfolding(crate::specs::Calls::pan_call))]
fn pan_call(l: &[u8], e: &mut OpenBox) -> Reply
    ensures { record { held = e.new; gave = result } ≡ pan_call l.now e.old }
{
    e.set_voice_pan(usize::from(byte_at(l, 1)), byte_at(l, 2));
    Reply::Nothing
}

#[tactic(auto, unfolding(crate::specs::Calls::gain_call))]
fn gain_call(l: &[u8], e: &mut OpenBox) -> Reply
    ensures { record { held = e.new; gave = result } ≡ gain_call l.now e.old }
{
    e.set_master_gain_q8(byte_at(l, 1));
    Reply::Nothing
}

#[tactic(auto, unfolding(crate::specs::Calls::stop_call))]
fn stop_call(e: &mut OpenBox) -> Reply
    ensures { record { held = e.new; gave = result } ≡ stop_call e.old }
{
    e.stop_all();
    Reply::Nothing
}

#[tactic(auto, unfolding(crate::specs::Calls::search_reply))]
fn search_call(l: &[u8], bytes: &[u8], e: &OpenBox) -> Reply
    ensures { result ≡ search_reply l.now bytes.now e.now }
{
    entry_reply(e.find_by_id(bytes, wide_at(l, 1)))
}

#[tactic(auto, unfolding(crate::specs::Calls::allocate_reply))]
fn allocate_call(l: &[u8], e: &OpenBox) -> Reply
    ensures { result ≡ allocate_reply l.now e.now }
{
    allocated_reply(e.allocate_voice(byte_at(l, 1)))
}

#[tactic(auto, unfolding(crate::specs::Calls::audible_reply))]
fn audible_call(e: &OpenBox) -> Reply
    ensures { result ≡ audible_reply e.now }
{
    let playing = flag_number(e.is_playing());
    Reply::Two(playing, e.active_voice_count() as u64)
}

#[tactic(auto, unfolding(crate::specs::Calls::stereo_call))]
fn stereo_call(bytes: &[u8], e: &mut OpenBox) -> Reply
    ensures { record { held = e.new; gave = result } ≡ stereo_call bytes.now e.old }
{
    let (left, right) = e.tick_stereo_pcm(bytes);
    let left = u64::from(left.cast_unsigned());
    let right = u64::from(right.cast_unsigned());
    Reply::Two(left, right)
}

#[tactic(auto, unfolding(crate::specs::Calls::duty_call))]
fn duty_call(bytes: &[u8], e: &mut OpenBox) -> Reply
    ensures { record { held = e.new; gave = result } ≡ duty_call bytes.now e.old }
{
    Reply::Wide(u64::from(e.tick(bytes)))
}

#[tactic(auto, unfolding(crate::specs::Calls::plain_play_call))]
fn plain_play_call(l: &[u8], bytes: &[u8], e: &mut OpenBox) -> Reply
    ensures { record { held = e.new; gave = result } ≡ plain_play_call l.now bytes.now e.old }
{
    let adsr = spec_at(l, 3);
    play_reply(e.play(bytes, wide_at(l, 1), adsr))
}

fn pan_reply(p: Option<u8>) -> Reply
    ensures { result ≡ pan_reply p }
{
    match p {
        Some(pan) => Reply::Two(1, u64::from(pan)),
        None => Reply::Number(0),
    }
}

#[tactic(auto, unfolding(crate::specs::Calls::pan_read_reply))]
fn pan_read_call(l: &[u8], e: &OpenBox) -> Reply
    ensures { result ≡ pan_read_reply l.now e.now }
{
    pan_reply(e.voice_pan(usize::from(byte_at(l, 1))))
}

#[tactic(auto, unfolding(crate::specs::Calls::sample_call))]
fn sample_call(bytes: &[u8], e: &mut OpenBox) -> Reply
    ensures { record { held = e.new; gave = result } ≡ sample_call bytes.now e.old }
{
    Reply::Number(u64::from(e.tick_pcm(bytes).cast_unsigned()))
}

#[tactic(auto, unfolding(crate::specs::Calls::duty_call))]
fn pwm_call(bytes: &[u8], e: &mut OpenBox) -> Reply
    ensures { record { held = e.new; gave = result } ≡ duty_call bytes.now e.old }
{
    Reply::Wide(u64::from(e.tick_pwm(bytes)))
}

#[tactic(auto, unfolding(crate::specs::Calls::wide_stereo_call))]
fn wide_stereo_call(bytes: &[u8], e: &mut OpenBox) -> Reply
    ensures { record { held = e.new; gave = result } ≡ wide_stereo_call bytes.now e.old }
{
    let (left, right) = e.tick_stereo_i16(bytes);
    let left = u64::from(left.cast_unsigned());
    let right = u64::from(right.cast_unsigned());
    Reply::WideTwo(left, right)
}

// A bad line on document 01's box.
#[tactic(auto, unfolding(crate::specs::Calls::fade_on_call))]
fn fade_on_call(l: &[u8], bytes: &[u8], e: &mut OpenBox) -> Reply
    ensures { record { held = e.new; gave = result } ≡ fade_on_call l.now bytes.now e.old }
{
    match e {
        OpenBox::Engine(_) => Reply::Bad,
        OpenBox::Sounder(s) => {
            let envelope = spec_at(l, 5);
            outcome_reply(s.crossfade_sounding_on(bytes, wide_at(l, 1), wide_at(l, 3), envelope))
        }
    }
}

#[tactic(auto, unfolding(crate::specs::Calls::fade_left_reply))]
fn fade_left_call(e: &OpenBox) -> Reply
    ensures { result ≡ fade_left_reply e.now }
{
    Reply::Number(u64::from(e.fade_frames_left()))
}

#[tactic(auto, unfolding(crate::specs::Calls::ranks_reply))]
fn ranks_call(e: &OpenBox) -> Reply
    ensures { result ≡ ranks_reply e.now }
{
    match e {
        OpenBox::Engine(_) => Reply::Bad,
        OpenBox::Sounder(_) => Reply::Ranks,
    }
}

// 15 and 16: the last waveform of each is given.
fn has_waveform(l: &[u8], last: u8) -> bool
    ensures { result ≡ sized_as 7 l.now && leb (byte_at l.now 7) last }
{
    l.len() == 16 && byte_at(l, 7) <= last
}

impl Record {
    #[tactic(auto, unfolding(crate::specs::Calls::record_of))]
    pub fn of(code: u8) -> Option<Record>
        ensures { result ≡ record_of code }
    {
        match code {
            0x11 => Some(Record::Bank),
            0x13 => Some(Record::Play),
            0x14 => Some(Record::Fade),
            0x15 => Some(Record::Tone),
            0x16 => Some(Record::PolyBlep),
            0x17 => Some(Record::Pan),
            0x18 => Some(Record::Gain),
            0x19 => Some(Record::Stop),
            0x1a => Some(Record::Search),
            0x1b => Some(Record::Payload),
            0x1c => Some(Record::Allocate),
            0x1d => Some(Record::Audible),
            0x2b => Some(Record::Stereo),
            0x2c => Some(Record::Duty),
            0x30 => Some(Record::Dump),
            0x62 => Some(Record::PlainPlay),
            0x63 => Some(Record::PanRead),
            0x64 => Some(Record::Policy),
            0x65 => Some(Record::Configuration),
            0x66 => Some(Record::Sample),
            0x67 => Some(Record::Pwm),
            0x68 => Some(Record::WideStereo),
            0x69 => Some(Record::Voice),
            0x73 => Some(Record::FadeOn),
            0x79 => Some(Record::FadeLeft),
            0x7a => Some(Record::Ranks),
            _ => None,
        }
    }

    // The length of a record's line and what its last field may be.
    #[tactic(auto, unfolding(crate::specs::Calls::allowed))]
    fn is_allowed(self, l: &[u8]) -> bool
        ensures { result ≡ allowed self l.now }
    {
        let n = l.len();
        match self {
            Record::Bank => n == 14,
            Record::Play => n == 22,
            Record::Fade => n == 24,
            Record::Tone => has_waveform(l, 2),
            Record::PolyBlep => has_waveform(l, 3),
            Record::Pan => n == 6,
            Record::Gain => n == 4,
            Record::Stop => n == 2,
            Record::Search => n == 6,
            Record::Payload => n == 14,
            Record::Allocate => n == 4,
            Record::Audible => n == 2,
            Record::Stereo => n == 2,
            Record::Duty => n == 2,
            Record::Dump => n == 2,
            Record::PlainPlay => n == 20,
            Record::PanRead => n == 4,
            Record::Policy => n == 2,
            Record::Configuration => n == 2,
            Record::Sample => n == 2,
            Record::Pwm => n == 2,
            Record::WideStereo => n == 2,
            Record::Voice => n == 4,
            Record::FadeOn => n == 24,
            Record::FadeLeft => n == 2,
            Record::Ranks => n == 2,
        }
    }

    #[tactic(auto, unfolding(crate::specs::Calls::call_for))]
    fn call_for(self, l: &[u8], bytes: &[u8], e: &mut OpenBox) -> Reply
        ensures { record { held = e.new; gave = result } ≡ call_for self l.now bytes.now e.old }
    {
        match self {
            Record::Bank => bank_call(l, bytes, e),
            Record::Play => play_call(l, bytes, e),
            Record::Fade => fade_call(l, bytes, e),
            Record::Tone => tone_call(l, e),
            Record::PolyBlep => polyblep_call(l, e),
            Record::Pan => pan_call(l, e),
            Record::Gain => gain_call(l, e),
            Record::Stop => stop_call(e),
            Record::Search => search_call(l, bytes, &*e),
            Record::Payload => Reply::Payload,
            Record::Allocate => allocate_call(l, &*e),
            Record::Audible => audible_call(&*e),
            Record::Stereo => stereo_call(bytes, e),
            Record::Duty => duty_call(bytes, e),
            Record::Dump => Reply::Dump,
            Record::PlainPlay => plain_play_call(l, bytes, e),
            Record::PanRead => pan_read_call(l, &*e),
            Record::Policy => Reply::Policy,
            Record::Configuration => Reply::Configuration,
            Record::Sample => sample_call(bytes, e),
            Record::Pwm => pwm_call(bytes, e),
            Record::WideStereo => wide_stereo_call(bytes, e),
            Record::Voice => Reply::Voice(byte_at(l, 1)),
            Record::FadeOn => fade_on_call(l, bytes, e),
            Record::FadeLeft => fade_left_call(&*e),
            Record::Ranks => ranks_call(&*e),
        }
    }

    // A line of this record over an open box and the bytes lent.
    #[tactic(auto, unfolding(crate::specs::Calls::called))]
    pub fn call(self, l: &[u8], bytes: &[u8], e: &mut OpenBox) -> Reply
        ensures { record { held = e.new; gave = result } ≡ called self l.now bytes.now e.old }
    {
        if self.is_allowed(l) {
            self.call_for(l, bytes, e)
        } else {
            Reply::Bad
        }
    }
}
