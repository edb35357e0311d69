//! Bytes cut at a mark: a newline or a comma.
ghost use Rattle.std.specs.Prelude.{◌≡◌, ◌≢◌, ◌∷◌, ◌++◌, All, MatchOption};

// The bytes up to the first mark or the end, and those after the mark, if there is one. A `split` would not do: a token
// knows its place, and a text that ends in LF has no further line.
pub(crate) fn cut(bytes: &[u8], mark: u8) -> (&[u8], Option<&[u8]>)
    ensures no_mark { All (λ b. b ≢ mark) result.0.now }
    ensures whole { MatchOption result.1 (bytes.now ≡ result.0.now) (λ rest. bytes.now ≡ result.0.now ++ mark ∷ rest.now) }
{
    for (at, byte) in bytes.iter().enumerate() {
        if *byte == mark {
            return (&bytes[..at], Some(&bytes[at + 1..]));
        }
    }
    (bytes, None)
}
