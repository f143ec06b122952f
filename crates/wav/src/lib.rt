// The layout of a sound file: RIFF/WAVE, PCM, two channels, 16 bits, little-endian.
#![tactic(auto)]

ghost use Rattle.std.specs.Prelude.{◌≡◌, ◌+◌, ◌≤◌, length};
ghost use Rattle.std.proofs.lemmas.List.Edits.{sets};
ghost use Rattle.wav.specs.Wav.{header_of, cell_bytes, fitting, Laid};

// The bytes from a place on.
fn put(out: &mut [u8], at: usize, bytes: &[u8])
    requires { at + length bytes.now ≤ length out.old }
    ensures { out.new ≡ sets out.old at bytes.now }
{
    out[at..at + bytes.len()].copy_from_slice(bytes);
}

// What stands before the frames of a file, where its sizes fit.
pub fn header(sample_rate_hz: u32, frames: u32) -> Option<[u8; 44]>
    ensures { result ≡ header_of sample_rate_hz frames }
{
    let second = sample_rate_hz.checked_mul(4)?;
    let all = frames.checked_mul(4)?;
    let rest = all.checked_add(36)?;
    let mut bytes = [0; 44];
    put(&mut bytes, 0, b"RIFF");
    put(&mut bytes, 4, &rest.to_le_bytes());
    put(&mut bytes, 8, b"WAVE");
    put(&mut bytes, 12, b"fmt ");
    put(&mut bytes, 16, &16u32.to_le_bytes());
    put(&mut bytes, 20, &1u16.to_le_bytes());
    put(&mut bytes, 22, &2u16.to_le_bytes());
    put(&mut bytes, 24, &sample_rate_hz.to_le_bytes());
    put(&mut bytes, 28, &second.to_le_bytes());
    put(&mut bytes, 32, &4u16.to_le_bytes());
    put(&mut bytes, 34, &16u16.to_le_bytes());
    put(&mut bytes, 36, b"data");
    put(&mut bytes, 40, &all.to_le_bytes());
    Some(bytes)
}

// As many whole cells as there is room for, from the front of the buffer on: how many bytes they take.
pub fn put_cells(cells: &[i16], out: &mut [u8]) -> usize
    ensures { Laid (cell_bytes (fitting cells.now out.old)) out.old out.new result }
{
    let n = cells.len().min(out.len() / 2);
    for (i, cell) in cells[..n].iter().enumerate() {
        put(out, 2 * i, &cell.to_le_bytes());
    }
    2 * n
}
