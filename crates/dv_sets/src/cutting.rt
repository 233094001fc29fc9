ghost use Rattle.std.specs.Prelude.{◌≡◌, ◌++◌, ◌∷◌, ◌<◌, All, MatchOption, IfSome, false, length, nat_eq, position};

// The place of the first such byte.
fn place_of(text: &[u8], byte: u8) -> Option<usize>
    ensures { result ≡ position (λ b. nat_eq b byte) text.now }
{
    text.iter().position(|b| *b == byte)
}

/// What stands before the first such byte, or the whole text, and what stands behind it.
pub fn cut(text: &[u8], byte: u8) -> (&[u8], Option<&[u8]>)
    ensures front { All (λ b. nat_eq b byte ≡ false) result.0.now }
    ensures parts { MatchOption result.1 (text.now ≡ result.0.now)
        (λ rest. text.now ≡ result.0.now ++ byte ∷ rest.now) }
    ensures shorter { IfSome result.1 (λ rest. length rest.now < length text.now) }
{
    match place_of(text, byte) {
        None => (text, None),
        Some(at) => {
            let (front, behind) = text.split_at(at);
            let (_, rest) = behind.split_at(1);
            (front, Some(rest))
        }
    }
}
