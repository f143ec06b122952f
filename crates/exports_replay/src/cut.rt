// Where a script's lines end.
ghost use Rattle.std.specs.Prelude.{◌≡◌, ◌<◌, length, eqb};
ghost use Rattle.std.specs.List.{position};
ghost use Rattle.exports_replay.specs.Cuts.{Cuts};

// The first line, and the bytes after its end.
#[derive(Clone, Copy)]
pub(crate) struct Cut<'a> {
    pub line: &'a [u8],
    pub rest: &'a [u8],
}

fn newline(script: &[u8]) -> Option<usize>
    ensures { result ≡ position (λ b. eqb b 10) script.now }
{
    script.iter().position(|&b| b == b'\n')
}

// The last line may lack its newline.
pub(crate) fn first_line(script: &[u8]) -> Cut<'_>
    requires { 0 < length script.now }
    ensures { Cuts script.now result }
{
    match newline(script) {
        Some(end) => Cut {
            line: &script[..end],
            rest: &script[end + 1..],
        },
        None => Cut {
            line: script,
            rest: &script[script.len()..],
        },
    }
}
