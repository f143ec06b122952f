// For C and Rust: a whole replay script, to what its lines are answered and to their sound. As much as there is room for is written, and the length of all of
// it is the answer, as C's snprintf has it: all is there where that is at most the buffer's length.
ghost use Rattle.exports_replay.specs.Runs.{answers, sounds, is_good, Poured, ran};

// The answers, line by line, and whether no line is bad.
#[unsafe(no_mangle)]
pub extern "C" fn birchjack_answers(script: &[u8], out: &mut [u8], good: &mut bool) -> usize
    ensures { Poured (answers script.now) (is_good script.now) out.old out.new (ran result good.new) }
{
    let a = crate::answers(script, out);
    *good = a.good;
    a.len
}

// The sound in 16-bit stereo cells, left before right, and whether no line is bad.
#[unsafe(no_mangle)]
pub extern "C" fn birchjack_sound(script: &[u8], out: &mut [i16], good: &mut bool) -> usize
    ensures { Poured (sounds script.now) (is_good script.now) out.old out.new (ran result good.new) }
{
    let s = crate::sound(script, out);
    *good = s.good;
    s.len
}
