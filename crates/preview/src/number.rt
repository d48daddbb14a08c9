// Reading decimal numbers.
ghost use Rattle.std.specs.Prelude.{◌≡◌};
ghost use Rattle.preview.specs.Number.{with_digit, number_of, positive_of, negative_of, signed_of};

// A number with one more digit, if it fits.
#[tactic(auto, unfolding(crate::specs::Number::with_digit))]
fn with_digit(n: u32, b: u8) -> Option<u32>
    ensures { result ≡ with_digit n b }
{
    if !b.is_ascii_digit() {
        return None;
    }
    n.checked_mul(10)?.checked_add(u32::from(b - b'0'))
}

// The number that a text spells in decimal digits.
#[tactic(auto, using(crate::proofs::Digits::digits), unfolding(crate::specs::Number::number_of))]
pub fn decimal(text: &[u8]) -> Option<u32>
    ensures { result ≡ number_of text.now }
{
    if text.is_empty() {
        return None;
    }
    let mut n = 0;
    for b in text {
        n = with_digit(n, *b)?;
    }
    Some(n)
}

#[tactic(auto, unfolding(crate::specs::Number::positive_of))]
fn positive(n: u32) -> Option<i32>
    ensures { result ≡ positive_of n }
{
    i32::try_from(n).ok()
}

#[tactic(auto, unfolding(crate::specs::Number::negative_of))]
fn negative(n: u32) -> Option<i32>
    ensures { result ≡ negative_of n }
{
    i32::try_from(-i64::from(n)).ok()
}

// The number that a text spells in decimal digits, with a `-` before them or not.
#[tactic(auto, using(crate::proofs::Digits::signs), unfolding(crate::specs::Number::signed_of))]
pub fn signed_decimal(text: &[u8]) -> Option<i32>
    ensures { result ≡ signed_of text.now }
{
    match text {
        [b'-', digits @ ..] => negative(decimal(digits)?),
        _ => positive(decimal(text)?),
    }
}
