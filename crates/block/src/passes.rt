// Passes over the cells of a block.
ghost use Rattle.std.specs.Prelude.{◌≡◌, ◌+◌, ◌*◌, ◌≤◌, ◌<◌, pos, length};
ghost use Rattle.frame.specs.Frames.{crossed};
ghost use Rattle.block.specs.Cells.{Written, Within, AtMost, Scaled, Added, Tallied, mean_of, leveled_by, mean_at, faded_at, Steady};

// A gain of 256 leaves the sample as it is, so that mono and stereo add alike.
fn scaled(sample: i8, gain: u16) -> i16
    requires { gain ≤ 256 }
    ensures { Scaled sample gain result }
{
    ((sample as i16) * (gain as i16)) >> 8
}

// `n` and `len` stand beside the buffers: a voice's contract says of its whole buffer what it gave, and which cells are not its own.
pub fn add(samples: &[i8; 256], gain: u16, n: usize, sums: &mut [i16; 256])
    requires { (gain ≤ 256) × (n ≤ 256) × (length sums.old ≡ 256) × Within 1920 sums.old }
    ensures { Added samples.now gain n sums.old sums.new }
{
    for (k, sum) in sums[..n].iter_mut().enumerate() {
        *sum += scaled(samples[k], gain);
    }
}

pub fn tally(n: usize, counts: &mut [u8; 256])
    requires { (n ≤ 256) × (length counts.old ≡ 256) × AtMost 15 counts.old }
    ensures { Tallied n counts.old counts.new }
{
    for count in counts[..n].iter_mut() {
        *count += 1;
    }
}

fn mean(sum: i16, count: u8) -> i32
    ensures { result ≡ mean_of sum count }
{
    if count > 1 {
        (sum as i32) / (count as i32)
    } else {
        sum as i32
    }
}

fn leveled(sum: i32, gain: u16) -> i8
    requires { gain ≤ 256 }
    ensures { result ≡ leveled_by gain sum }
{
    let s = fixed::soft_limit_i8(sum);
    (((s as i16) * (gain as i16)) >> 8) as i8
}

// The means, written from `at` on. Stereo, which sums undivided, has counts of 0.
pub fn write_means(
    sums: &[i16; 256],
    counts: &[u8; 256],
    gain: u16,
    at: usize,
    len: usize,
    out: &mut [i8; 256],
)
    requires { (at + len ≤ 256) × (length out.old ≡ 256) × (gain ≤ 256) }
    ensures { Written (pos 0) (mean_at gain sums.now counts.now at) at (at + len) out.old out.new }
{
    for (k, cell) in out[at..at + len].iter_mut().enumerate() {
        *cell = leveled(mean(sums[k], counts[k]), gain);
    }
}

// The two samples crossed at t, or the one that was given; the level 0 where none was.
#[tactic(auto, unfolding(frame::specs::Frames::crossed))]
fn crossed(a: Option<i8>, b: Option<i8>, t: u8) -> i32
    ensures { result ≡ crossed t a b }
{
    match (a, b) {
        (Some(a), Some(b)) => fixed::mix_crossfade(a, b, t) as i32,
        (Some(a), None) => a as i32,
        (None, Some(b)) => b as i32,
        (None, None) => 0,
    }
}

// The frames of a fade that goes on after them.
pub fn write_faded(
    first: &[i8; 256],
    n: usize,
    second: &[i8; 256],
    n2: usize,
    t: u8,
    step: u8,
    gain: u16,
    len: usize,
    out: &mut [i8; 256],
)
    requires { (len ≤ 256) × (length out.old ≡ 256) × Steady t step len × (gain ≤ 256) }
    ensures { Written (pos 0) (faded_at gain t step first.now n second.now n2) 0 len out.old out.new }
{
    let mut mix = t;
    for (k, cell) in out[..len].iter_mut().enumerate() {
        mix += step;
        let a = (k < n).then_some(first[k]);
        let b = (k < n2).then_some(second[k]);
        *cell = leveled(crossed(a, b, mix), gain);
    }
}
