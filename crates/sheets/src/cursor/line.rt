ghost use Rattle.std.specs.Prelude.{◌≡◌, ◌<◌, ◌≤◌, length, count_by, MatchResult};
ghost use Rattle.model.specs.Refusals.{fault};
ghost use Rattle.model.specs.declared.fault.Refusal.TheVariants.{TooManyBrackets};
ghost use Rattle.sheets.specs.Cursors.{ahead};
ghost use Rattle.sheets.specs.Lines.{says_nothing};
ghost use Rattle.sheets.specs.Tokens.{brackets, opens_deeper};

use super::tokens::after_spaces;
use super::{Cursor, MAX_BRACKETS};
use model::{Fault, Refusal};

impl<'a> Cursor<'a> {
    // Stands before the first byte of a line.
    pub(crate) fn new(rest: &'a [u8], line: usize) -> Cursor<'a>
        requires { length rest.now ≤ 65535 }
        ensures rest { result.rest.now ≡ rest.now }
        ensures line { result.line ≡ line }
    {
        Cursor { rest, line }
    }

    // Whether the line is blank or a comment from here on.
    pub(crate) fn is_silent(&self) -> bool
        ensures { result ≡ says_nothing self.now.rest.now }
    {
        after_spaces(self.rest).first().is_none_or(|b| *b == b'#')
    }

    // Refuses a line with too many brackets and nots.
    pub(crate) fn check_brackets(&self) -> Result<(), Fault>
        ensures { MatchResult result (λ _. brackets (ahead self.now) ≤ 32) (λ f. (f ≡ fault TooManyBrackets self.now.line) × (32 < brackets (ahead self.now))) }
    {
        if count_brackets(self.rest) > MAX_BRACKETS {
            return Err(self.refuse(Refusal::TooManyBrackets));
        }
        Ok(())
    }
}

// How many tokens `(` and `!` a line has. No other token holds such a byte. A sum over all bytes, since the compiler adds
// up several at a time then, as it does not where some are left out.
fn count_brackets(line: &[u8]) -> usize
    ensures { result ≡ count_by opens_deeper line.now }
{
    line.iter().fold(
        0,
        |count, b| count.wrapping_add(usize::from(opens_deeper(*b))),
    )
}

// Whether a byte is a token `(` or `!`.
fn opens_deeper(b: u8) -> bool
    ensures { result ≡ opens_deeper b }
{
    matches!(b as char, '(' | '!')
}
