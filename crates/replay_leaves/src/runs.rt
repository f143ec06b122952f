// The records of many answers: an envelope's levels and state, a mapper's duties.
ghost use Rattle.std.specs.Prelude.{◌≡◌, ◌+◌, ◌-◌, ◌*◌, ◌/◌, ◌≤◌, length};
ghost use Rattle.envelope.specs.Adsrs.{Valid, ticked};
ghost use Rattle.error.specs.Told.{value, Answered};
ghost use Rattle.laws.specs.Made.{Made};
ghost use Rattle.output.specs.Duty.{ValidMapper, ValidMapped};
ghost use Rattle.hex_digits.specs.Hex.{wide_at, long_at, Laid, Wrote};
ghost use Rattle.replay_fields.specs.Read.{spec_at};
ghost use Rattle.replay_leaves.specs.Runs.{stepped, texts, opened_at, level_text, levels_of, levels_text, state_of, state_text, mapper_at, map_step, duty_text, mapper_line, duties_of, duties_text};

use envelope::Envelope;
use error::AudioError;
use hex_digits::{byte_at, end_line, long_at, put, put_line, wide_at};
use output::{Mapped, Period, PwmMapper, SigmaDelta};
use replay_fields::{mode_of, put_adsr, spec_at};

// An envelope after some ticks, and the place after their levels.
#[derive(Clone, Copy, Debug, PartialEq, Eq)]
struct Ticked {
    envelope: Envelope,
    next: usize,
}

fn open_at(l: &[u8]) -> Result<Envelope, AudioError>
    ensures { Answered Valid (opened_at l.now) result }
{
    Envelope::open(spec_at(l, 1), long_at(l, 8))
}

// Here and below a buffer and a place in it, as `hex_digits::put` has them: there is no heap for a Vec.
// Ticks, each with its level after it. This run and those of duties, requests and frames stay apart: one over any step and text would be
// no plainer, since a voice asks at each step that it is valid, and a duty's sample stands at its place in the line.
fn ticks(out: &mut [u8; 262144], at: usize, first: Envelope, count: u16) -> Ticked
    ensures laid { Laid out.old at (texts ticked level_text count first) out.new result.next }
    ensures next_bound { result.next ≤ at + 2 * count }
    ensures made { result.envelope ≡ stepped ticked count first }
{
    let mut e = first;
    let mut next = at;
    for _ in 0..count {
        e = e.tick();
        next = put(out, next, e.level() as u64, 2);
    }
    Ticked { envelope: e, next }
}

fn run_levels(l: &[u8], e: Envelope, out: &mut [u8; 262144]) -> usize
    ensures { Wrote out.old 0 (levels_of (wide_at l.now 12) (wide_at l.now 14) (value e)) out.new result }
{
    let n = put_line(out, 0, 2);
    let held = ticks(out, n, e.trigger(), wide_at(l, 12));
    let left = ticks(out, held.next, held.envelope.release(), wide_at(l, 14));
    end_line(out, left.next)
}

#[tactic(auto, unfolding(crate::specs::Runs::levels_text))]
pub(crate) fn levels(l: &[u8], out: &mut [u8; 262144]) -> usize
    ensures { Wrote out.old 0 (levels_text l.now) out.new result }
{
    match open_at(l) {
        Ok(e) => run_levels(l, e, out),
        Err(e) => put_line(out, u64::from(u8::from(e)), 2),
    }
}

fn ticked_by(first: Envelope, count: u16) -> Envelope
    ensures { result ≡ stepped ticked count first }
{
    let mut e = first;
    for _ in 0..count {
        e = e.tick();
    }
    e
}

fn run_state(l: &[u8], e: Envelope, out: &mut [u8; 262144]) -> usize
    ensures { Wrote out.old 0 (state_of (wide_at l.now 12) (wide_at l.now 14) (value e)) out.new result }
{
    let n = put_line(out, 0, 2);
    let held = ticked_by(e.trigger(), wide_at(l, 12));
    let left = ticked_by(held.release(), wide_at(l, 14));
    let end = put_adsr(out, n, left.state());
    end_line(out, end)
}

#[tactic(auto, unfolding(crate::specs::Runs::state_text))]
pub(crate) fn state(l: &[u8], out: &mut [u8; 262144]) -> usize
    ensures { Wrote out.old 0 (state_text l.now) out.new result }
{
    match open_at(l) {
        Ok(e) => run_state(l, e, out),
        Err(e) => put_line(out, u64::from(u8::from(e)), 2),
    }
}

// What the last sample was mapped to, and the place after the duties.
#[derive(Clone, Copy, Debug, PartialEq, Eq)]
struct MappedTo {
    last: Mapped,
    next: usize,
}

fn mapper_at(l: &[u8]) -> PwmMapper
    ensures { Made ValidMapper (mapper_at l.now) result }
{
    PwmMapper {
        sigma_delta: SigmaDelta {
            integrator: long_at(l, 4).cast_signed(),
        },
        ..PwmMapper::new(mode_of(byte_at(l, 1)))
    }
}

// The samples from byte 8 on, each with its duty. By the index: a sample is a byte of the record, two digits of the line.
fn map_all(
    out: &mut [u8; 262144],
    l: &[u8],
    period: Period,
    first: Mapped,
    count: usize,
) -> MappedTo
    requires valid { ValidMapped first }
    requires count_bound { count ≤ 4096 }
    ensures laid { Laid out.old 3 (texts (map_step l.now period) duty_text count (8, first)) out.new result.next }
    ensures next_bound { result.next ≤ 3 + 4 * count }
    ensures made { Made ValidMapped (stepped (map_step l.now period) count (8, first)).1 result.last }
{
    let mut last = first;
    let mut next = 3;
    for i in 0..count {
        let sample = fixed::as_i8(byte_at(l, 8 + i));
        last = last.mapper.map(sample, period);
        next = put(out, next, last.duty as u64, 4);
    }
    MappedTo { last, next }
}

fn put_mapper(out: &mut [u8; 262144], at: usize, m: PwmMapper) -> usize
    ensures { Laid out.old at (mapper_line m) out.new result × (result ≤ at + 25) }
{
    let n1 = put(out, at, m.sigma_delta.integrator.cast_unsigned() as u64, 8);
    let n2 = put(out, n1, m.sigma_delta_2nd.e1().cast_unsigned() as u64, 8);
    let n3 = put(out, n2, m.sigma_delta_2nd.e2().cast_unsigned() as u64, 8);
    end_line(out, n3)
}

fn run_duties(l: &[u8], count: usize, period: Period, out: &mut [u8; 262144]) -> usize
    requires { count ≤ 4096 }
    ensures { Wrote out.old 0 (duties_of l.now count (value period)) out.new result }
{
    put_line(out, 0, 2);
    let first = Mapped {
        mapper: mapper_at(l),
        duty: 0,
    };
    let to = map_all(out, l, period, first, count);
    put_mapper(out, to.next, to.last.mapper)
}

fn sample_count(digits: usize) -> usize
    ensures { result ≡ digits / 2 - 8 }
{
    (digits / 2).saturating_sub(8)
}

// Of a line of at most 8,194 digits.
#[tactic(auto, unfolding(crate::specs::Runs::duties_text))]
pub(crate) fn duties(l: &[u8], out: &mut [u8; 262144]) -> usize
    requires { length l.now ≤ 8194 }
    ensures { Wrote out.old 0 (duties_text l.now) out.new result }
{
    let count = sample_count(l.len());
    match Period::new(wide_at(l, 2)) {
        Ok(p) => run_duties(l, count, p, out),
        Err(e) => put_line(out, u64::from(u8::from(e)), 2),
    }
}
