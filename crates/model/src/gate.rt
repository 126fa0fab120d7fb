ghost use Rattle.std.specs.Prelude.{◌≡◌, ℕ, length, Some, codes};
ghost use Rattle.model.specs.Gates.{arguments_of, constant_gate, empty_gate, kind_number, one_argument, two_arguments, word_of, Numbered, Worded};

use std::error::Error;
use std::fmt;

/// What a gate does with its arguments.
#[derive(Clone, Copy, Debug, PartialEq, Eq)]
pub enum GateKind {
    Const = 1,
    Sum = 2,
    Times = 3,
    Minus = 4,
    Not = 5,
    Or = 6,
}

/// A gate of a net: its kind by number, a constant's number, and two arguments, which are signals.
/// The kind is a number, since a net may come from anywhere, and one of no kind is refused when it is checked.
/// The fields may hold anything; those that the kind does not use are 0 when a sheet is read.
#[derive(Clone, Copy, Debug, PartialEq, Eq)]
pub struct Gate {
    pub kind: u8,
    pub number: u32,
    pub first: u32,
    pub second: u32,
}

/// A number that is no kind's, or a word that is none's.
#[derive(Clone, Copy, Debug, PartialEq, Eq)]
pub struct UnknownKind;

impl From<GateKind> for u8 {
    ghost from_gives = { λ kind number. number ≡ kind_number kind };

    fn from(kind: GateKind) -> u8 {
        kind as u8
    }
}

// A gate tells its kind by number.
impl TryFrom<u8> for GateKind {
    type Error = UnknownKind;

    ghost try_from_gives = { Numbered };

    fn try_from(number: u8) -> Result<GateKind, UnknownKind> {
        match number {
            1 => Ok(GateKind::Const),
            2 => Ok(GateKind::Sum),
            3 => Ok(GateKind::Times),
            4 => Ok(GateKind::Minus),
            5 => Ok(GateKind::Not),
            6 => Ok(GateKind::Or),
            _ => Err(UnknownKind),
        }
    }
}

// A gate sheet tells it by a word.
impl<'a> TryFrom<&'a [u8]> for GateKind {
    type Error = UnknownKind;

    ghost try_from_gives = { λ word kind. Worded word.now kind };

    fn try_from(word: &'a [u8]) -> Result<GateKind, UnknownKind> {
        match word {
            b"const" => Ok(GateKind::Const),
            b"sum" => Ok(GateKind::Sum),
            b"times" => Ok(GateKind::Times),
            b"minus" => Ok(GateKind::Minus),
            b"not" => Ok(GateKind::Not),
            b"or" => Ok(GateKind::Or),
            _ => Err(UnknownKind),
        }
    }
}

// A kind is shown as its word.
impl fmt::Display for GateKind {
    ghost output = { λ kind. Some (word_of kind) };

    fn fmt<W: fmt::Write>(&self, f: &mut fmt::Formatter<W>) -> fmt::Result {
        f.write_str(self.word())
    }
}

impl fmt::Display for UnknownKind {
    ghost output = { λ _. Some (codes "no kind of gate") };

    fn fmt<W: fmt::Write>(&self, f: &mut fmt::Formatter<W>) -> fmt::Result {
        f.write_str("no kind of gate")
    }
}

impl Error for UnknownKind {}

impl GateKind {
    /// The word that a gate sheet writes.
    pub fn word(self) -> &'static str
        ensures { result.now ≡ word_of self }
    {
        match self {
            GateKind::Const => "const",
            GateKind::Sum => "sum",
            GateKind::Times => "times",
            GateKind::Minus => "minus",
            GateKind::Not => "not",
            GateKind::Or => "or",
        }
    }

    /// How many arguments a gate of this kind uses.
    pub fn arity(self) -> usize
        ensures { (a b : ℕ) → result ≡ length (arguments_of self a b) }
    {
        match self {
            GateKind::Const => 0,
            GateKind::Minus | GateKind::Not => 1,
            GateKind::Sum | GateKind::Times | GateKind::Or => 2,
        }
    }
}

impl Gate {
    /// No gate: every field is 0.
    pub fn empty() -> Gate
        ensures { result ≡ empty_gate }
    {
        Gate {
            kind: 0,
            number: 0,
            first: 0,
            second: 0,
        }
    }

    /// A constant.
    pub fn constant(number: u32) -> Gate
        ensures { result ≡ constant_gate number }
    {
        Gate {
            kind: GateKind::Const.into(),
            number,
            first: 0,
            second: 0,
        }
    }

    /// A gate of one argument.
    pub fn unary(kind: GateKind, argument: u32) -> Gate
        ensures { result ≡ one_argument kind argument }
    {
        Gate {
            kind: kind.into(),
            number: 0,
            first: argument,
            second: 0,
        }
    }

    /// A gate of two arguments.
    pub fn binary(kind: GateKind, first: u32, second: u32) -> Gate
        ensures { result ≡ two_arguments kind first second }
    {
        Gate {
            kind: kind.into(),
            number: 0,
            first,
            second,
        }
    }
}
