// What is told, put into a buffer as far as there is room.
ghost use Rattle.std.specs.Prelude.{◌≡◌};
ghost use Rattle.std.proofs.lemmas.List.Edits.{sets};

// Bytes or samples, from a place on; past the buffer's end nothing is written.
pub(crate) fn poured<T: Copy>(from: &[T], out: &mut [T], at: usize)
    ensures { out.new ≡ sets out.old at from.now }
{
    if at < out.len() {
        let n = from.len().min(out.len() - at);
        out[at..at + n].copy_from_slice(&from[..n]);
    }
}
