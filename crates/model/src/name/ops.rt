ghost use Rattle.std.specs.Prelude.{◌≡◌, true, false, [], length, Some, MatchResult, ◌==◌, codes};
ghost use Rattle.model.specs.Names.{every, is_letter, is_name, is_word_byte};
ghost use Rattle.model.specs.Spelling.{spelling};

use super::{MAX_LENGTH, Name};
use std::error::Error;
use std::fmt;

/// A word that is no name.
#[derive(Clone, Copy, Debug, PartialEq, Eq)]
pub struct NotAName;

impl Name {
    /// The empty name, which no sheet can write.
    pub fn empty() -> Name
        ensures { spelling result ≡ [] }
    {
        Name {
            bytes: [0; MAX_LENGTH],
            len: 0,
        }
    }

    /// Whether it is the empty name.
    pub fn is_empty(&self) -> bool
        ensures { result ≡ (length (spelling self.now) == 0) }
    {
        self.len == 0
    }

    /// The bytes that the name is written with.
    pub fn as_bytes(&self) -> &[u8]
        ensures { result.now ≡ spelling self.now }
    {
        &self.bytes[0..self.len]
    }
}

// The name that is written as the word, if that is a name.
impl<'a> TryFrom<&'a [u8]> for Name {
    type Error = NotAName;

    ghost try_from_gives = { λ word r. MatchResult r (λ n. (is_name word.now ≡ true) × (spelling n ≡ word.now)) (λ _. is_name word.now ≡ false) };

    fn try_from(word: &'a [u8]) -> Result<Name, NotAName> {
        if !is_name(word) {
            return Err(NotAName);
        }
        let mut bytes = [0; MAX_LENGTH];
        bytes[..word.len()].copy_from_slice(word);
        Ok(Name {
            bytes,
            len: word.len(),
        })
    }
}

impl fmt::Display for Name {
    ghost output = { λ n. Some (spelling n) };

    fn fmt<W: fmt::Write>(&self, f: &mut fmt::Formatter<W>) -> fmt::Result {
        for b in self.as_bytes() {
            f.write_char(*b as char)?;
        }
        Ok(())
    }
}

impl fmt::Display for NotAName {
    ghost output = { λ _. Some (codes "no name") };

    fn fmt<W: fmt::Write>(&self, f: &mut fmt::Formatter<W>) -> fmt::Result {
        f.write_str("no name")
    }
}

impl Error for NotAName {}

fn is_letter(b: u8) -> bool
    ensures { result ≡ is_letter b }
{
    matches!(b as char, 'a'..='z')
}

/// Whether a byte belongs to a run that is one token.
pub fn is_word_byte(b: u8) -> bool
    ensures { result ≡ is_word_byte b }
{
    matches!(b as char, 'a'..='z' | '0'..='9' | '_')
}

fn all_word_bytes(word: &[u8]) -> bool
    ensures { result ≡ every is_word_byte word.now }
{
    word.iter().all(|b| is_word_byte(*b))
}

fn is_name(word: &[u8]) -> bool
    ensures { result ≡ is_name word.now }
{
    // the length first, so that a long word costs no more than a short one
    word.len() <= MAX_LENGTH && word.first().is_some_and(|b| is_letter(*b)) && all_word_bytes(word)
}
