//! Bytes parted at a stop, by which the input falls into lines and a line into words.
ghost use Rattle.std.specs.Prelude.{◌≡◌, ◌∷◌, ◌++◌, ◌==◌, position, IfSome, MatchOption};
ghost use Rattle.console.specs.Lines.{before};

fn place_of(bytes: &[u8], stop: u8) -> Option<usize>
    ensures { result ≡ position (λ byte. byte == stop) bytes.now }
{
    bytes.iter().position(|byte| *byte == stop)
}

/// What stands before the first stop and what stands behind it; none where no stop stands.
#[tactic(auto, using(crate::proofs::Lines::parted))]
pub(crate) fn split_once(bytes: &[u8], stop: u8) -> Option<(&[u8], &[u8])>
    ensures front { MatchOption result (before stop bytes.now ≡ bytes.now) (λ parts. parts.0.now ≡ before stop bytes.now) }
    ensures whole { IfSome result (λ parts. bytes.now ≡ parts.0.now ++ (stop ∷ parts.1.now)) }
{
    let at = place_of(bytes, stop)?;
    Some((&bytes[..at], &bytes[at + 1..]))
}
