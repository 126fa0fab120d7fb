ghost use Rattle.std.specs.Prelude.{◌≡◌, ℕ, List, not, Err, position, MatchOption, MatchResult};
ghost use Rattle.sheets.specs.Sheets.{allowed, Heading, Opens, Plain};

use crate::number::number;
use model::{Fault, Refusal};

// The most bytes that a sheet may have.
const MAX_TEXT: usize = 65535;

// The checks of the text as a whole.
pub(crate) fn check_text(text: &[u8]) -> Result<(), Fault>
    ensures { MatchResult result (λ _. Plain text.now) (λ f. (mark : List ℕ) → Opens mark text.now (Err f)) }
{
    if text.len() > MAX_TEXT {
        return Err(Refusal::TextTooLong.at(0));
    }
    match first_bad(text) {
        Some(place) => Err(Refusal::BadByte.at(place)),
        None => Ok(()),
    }
}

// Where the first byte is that no sheet may have.
fn first_bad(text: &[u8]) -> Option<usize>
    ensures { result ≡ position (λ b. not (allowed b)) text.now }
{
    text.iter().position(|b| !is_allowed(*b))
}

// The version after the mark and a space, and nothing else.
pub(crate) fn version(line: &[u8], mark: &[u8]) -> Option<u16>
    ensures { MatchOption result ((v : ℕ) → Heading mark.now line.now v → ⊥) (λ v. Heading mark.now line.now v) }
{
    let digits = line.strip_prefix(mark)?.strip_prefix(b" ")?;
    u16::try_from(number(digits)?).ok()
}

fn is_allowed(b: u8) -> bool
    ensures { result ≡ allowed b }
{
    matches!(b as char, '\n' | ' '..='~')
}
