// Strings: whether bytes are text, and whether a content is a string.

ghost use Rattle.std.specs.Prelude.{◌≡◌, ◌≤◌, ◌<◌, ◌∷◌, false, length, eqb, unwrap_or, MatchOption, IfSome};
ghost use Rattle.wire.specs.Text.{following, following_in, follows, text_fits, string_fits};

// How many bytes follow a first byte; none: no text has it there.
#[tactic(auto, unfolding(crate::specs::Text::following))]
pub fn following_of(b: u8) -> Option<usize>
    ensures is { result ≡ following_in b }
    ensures number { unwrap_or result 4 ≡ following b }
    ensures few { IfSome result (λ n. n < 4) }
{
    match b {
        0x01..=0x7F => Some(0),
        0xC2..=0xDF => Some(1),
        0xE0..=0xEF => Some(2),
        0xF0..=0xF4 => Some(3),
        _ => None,
    }
}

// Whether a byte is one of those that follow.
#[tactic(auto, unfolding(crate::specs::Text::follows))]
pub fn follows_on(b: u8) -> bool
    ensures { result ≡ follows b }
{
    matches!(b, 0x80..=0xBF)
}

// Whether a byte is a character by itself; one test, for the bytes that most texts have.
#[tactic(auto, unfolding(crate::specs::Text::following))]
fn is_plain(b: u8) -> bool
    ensures { result ≡ eqb (following b) 0 }
{
    matches!(b, 0x01..=0x7F)
}

// What is left behind the plain bytes that a text begins with; where fewer than four are left, those stay. By fours they take a quarter
// fewer instructions than by `position` over the whole text.
fn plain_passed(text: &[u8]) -> &[u8]
    ensures shorter { length result.now ≤ length text.now }
    ensures same { text_fits text.now ≡ text_fits result.now }
{
    let mut rest = text;
    while let Some((four, left)) = rest.split_first_chunk::<4>() {
        if let Some(n) = four.iter().position(|b| !is_plain(*b)) {
            return &rest[n..];
        }
        rest = left;
    }
    rest
}

// What is left behind the bytes that follow a first byte; none where they don't follow.
fn followed(first: u8, after: &[u8]) -> Option<&[u8]>
    ensures shorter { IfSome result (λ left. length left.now ≤ length after.now) }
    ensures same { MatchOption result
        (text_fits (first ∷ after.now) ≡ false)
        (λ left. text_fits (first ∷ after.now) ≡ text_fits left.now) }
{
    let n = following_of(first)?;
    let (following, left) = after.split_at_checked(n)?;
    following.iter().all(|b| follows_on(*b)).then_some(left)
}

// Whether bytes are text. Not inlined: its callers are the loops over members, which keep their registers so.
#[inline(never)]
pub fn text_fits(text: &[u8]) -> bool
    ensures { result ≡ text_fits text.now }
{
    let mut rest = text;
    while let [first, after @ ..] = rest {
        if is_plain(*first) {
            rest = plain_passed(after);
        } else {
            let Some(left) = followed(*first, after) else {
                return false;
            };
            rest = left;
        }
    }
    true
}

// Whether bytes are a string's content.
#[tactic(auto, unfolding(crate::specs::Text::string_fits))]
pub fn string_fits(content: &[u8]) -> bool
    ensures { result ≡ string_fits content.now }
{
    match content {
        [0xEF, 0xBB, 0xBF, text @ .., 0] => text_fits(text),
        _ => false,
    }
}
