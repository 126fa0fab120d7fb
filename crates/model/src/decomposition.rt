ghost use Rattle.std.specs.Prelude.{◌≡◌, [], ◌∷◌, Some, codes};
ghost use Rattle.model.specs.Letters.{letter_of, Lettered};

use std::error::Error;
use std::fmt;

/// How a diagram branches at a fact. A sheet writes each type as a letter, and so does `{}`.
#[derive(Clone, Copy, Debug, PartialEq, Eq)]
pub enum Decomposition {
    Shannon,
    PositiveDavio,
    NegativeDavio,
}

/// A character that is no type's letter.
#[derive(Clone, Copy, Debug, PartialEq, Eq)]
pub struct UnknownLetter;

impl From<Decomposition> for char {
    ghost from_gives = { λ decomposition letter. letter ≡ letter_of decomposition };

    fn from(decomposition: Decomposition) -> char {
        match decomposition {
            Decomposition::Shannon => 'S',
            Decomposition::PositiveDavio => 'P',
            Decomposition::NegativeDavio => 'N',
        }
    }
}

impl TryFrom<char> for Decomposition {
    type Error = UnknownLetter;

    ghost try_from_gives = { Lettered };

    fn try_from(letter: char) -> Result<Decomposition, UnknownLetter> {
        match letter {
            'S' => Ok(Decomposition::Shannon),
            'P' => Ok(Decomposition::PositiveDavio),
            'N' => Ok(Decomposition::NegativeDavio),
            _ => Err(UnknownLetter),
        }
    }
}

impl fmt::Display for Decomposition {
    ghost output = { λ decomposition. Some (letter_of decomposition ∷ []) };

    fn fmt<W: fmt::Write>(&self, f: &mut fmt::Formatter<W>) -> fmt::Result {
        f.write_char(char::from(*self))
    }
}

impl fmt::Display for UnknownLetter {
    ghost output = { λ _. Some (codes "no letter of a type") };

    fn fmt<W: fmt::Write>(&self, f: &mut fmt::Formatter<W>) -> fmt::Result {
        f.write_str("no letter of a type")
    }
}

impl Error for UnknownLetter {}
