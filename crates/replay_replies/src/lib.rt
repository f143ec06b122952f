// Each reply as text, from the front of the buffer on.
#![tactic(auto)]

ghost use Rattle.std.specs.Prelude.{◌≡◌, ◌++◌};
ghost use Rattle.error.specs.Told.{told, number_in};
ghost use Rattle.mixer.specs.Mixers.{Valid, voice_read};
ghost use Rattle.hex_digits.specs.Hex.{hex_of, newline, Wrote};
ghost use Rattle.replay_box.specs.Boxes.{is_present, mixer_of, waiting_in};
ghost use Rattle.replay_replies.specs.Texts.{entry_text, payload_text, config_text, voice_text, ranks_text, waiting_text, reply_text};

use bank::EffectEntry;
use config::AudioConfig;
use error::AudioError;
use hex_digits::{end_line, long_at, put, put_line, wide_at};
use mixer::Mixer;
use replay_box::OpenBox;
use replay_calls::Reply;
use replay_cells::put_cells;
use replay_dump::{mode_number, policy_number, put_dump};
use replay_fields::put_voice;

// Two numbers, each with how many digits it has.
fn put_two(out: &mut [u8; 262144], a: (u64, u8), b: (u64, u8)) -> usize
    ensures { Wrote out.old 0 (hex_of a.1 a.0 ++ hex_of b.1 b.0 ++ newline) out.new result }
{
    let n1 = put(out, 0, a.0, a.1);
    let n2 = put(out, n1, b.0, b.1);
    end_line(out, n2)
}

fn put_config(out: &mut [u8; 262144], c: AudioConfig) -> usize
    ensures { Wrote out.old 0 (config_text c) out.new result }
{
    let n1 = put(out, 0, c.sample_rate_hz as u64, 8);
    let n2 = put(out, n1, c.pwm_period as u64, 4);
    let n3 = put(out, n2, mode_number(c.duty_mode), 2);
    let n4 = put(out, n3, c.master_gain_q8 as u64, 2);
    end_line(out, n4)
}

fn put_voice_at(out: &mut [u8; 262144], m: Mixer, i: u8) -> usize
    requires { Valid m }
    ensures { Wrote out.old 0 (voice_text (voice_read m i)) out.new result }
{
    match m.voice(i as usize) {
        Some(v) => {
            let end = put_voice(out, 0, v);
            end_line(out, end)
        }
        None => end_line(out, 0),
    }
}

// A box has at most 16 voices, which its state says and their count alone does not.
fn put_ranks(out: &mut [u8; 262144], e: &OpenBox) -> usize
    ensures { Wrote out.old 0 (ranks_text e.now) out.new result }
{
    let ranks = e.ranks();
    let n = e.state().n;
    put_cells(out, 0, 0, &ranks[..n])
}

fn put_waiting(out: &mut [u8; 262144], e: &OpenBox) -> usize
    ensures { Wrote out.old 0 (waiting_text (waiting_in e.now)) out.new result }
{
    let labels = e.waiting_labels();
    let n = e.waiting_count();
    put_cells(out, n as u64, 2, &labels[..n])
}

fn put_entry(out: &mut [u8; 262144], e: EffectEntry) -> usize
    ensures { Wrote out.old 0 (entry_text e) out.new result }
{
    let n1 = put(out, 0, 0, 2);
    let n2 = put(out, n1, u64::from(u8::from(e.kind)), 2);
    let n3 = put(out, n2, e.flags as u64, 2);
    let n4 = put(out, n3, e.default_gain_q8 as u64, 2);
    let n5 = put(out, n4, e.param0 as u64, 4);
    let n6 = put(out, n5, e.param1 as u64, 4);
    let n7 = put(out, n6, e.offset as u64, 8);
    let n8 = put(out, n7, e.len as u64, 8);
    end_line(out, n8)
}

fn payload_number(p: Result<(), AudioError>) -> u64
    ensures { result ≡ number_in (told p) }
{
    u64::from(p.map_or_else(u8::from, |()| 0))
}

// A part of the bank is of at most 65,535 bytes, since its length has two.
fn put_payload(l: &[u8], bytes: &[u8], e: &OpenBox, out: &mut [u8; 262144]) -> usize
    ensures { Wrote out.old 0 (payload_text (is_present e.now) (mixer_of e.now).bank l.now bytes.now) out.new result }
{
    let offset = long_at(l, 1);
    let len = wide_at(l, 5) as u32;
    let read = e.payload_number(bytes, offset, len);
    let number = payload_number(read);
    let part = e.payload(bytes, offset, len);
    put_cells(out, number, 2, part)
}

pub fn put_reply(reply: Reply, l: &[u8], bytes: &[u8], e: &OpenBox, out: &mut [u8; 262144]) -> usize
    ensures { Wrote out.old 0 (reply_text reply l.now bytes.now e.now) out.new result }
{
    match reply {
        Reply::Bad => put_line(out, 0xffff, 4),
        // A length, and no number of a refusal.
        Reply::Nothing => 0,
        Reply::Number(n) => put_line(out, n, 2),
        Reply::Two(a, b) => put_two(out, (a, 2), (b, 2)),
        Reply::Wide(n) => put_line(out, n, 4),
        Reply::WideTwo(a, b) => put_two(out, (a, 4), (b, 4)),
        Reply::Labelled(a, b) => put_two(out, (a, 2), (b, 4)),
        Reply::Entry(entry) => put_entry(out, entry),
        Reply::Payload => put_payload(l, bytes, e, out),
        Reply::Dump => put_dump(out, e.state()),
        Reply::Policy => put_line(out, policy_number(e.stealing_policy()), 2),
        Reply::Configuration => put_config(out, e.config()),
        Reply::Voice(i) => put_voice_at(out, e.state(), i),
        Reply::Ranks => put_ranks(out, e),
        Reply::Waiting => put_waiting(out, e),
    }
}
