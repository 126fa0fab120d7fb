ghost use Rattle.std.specs.Prelude.{◌≡◌};
ghost use Rattle.storage.specs.Hashes.{question_hash};
ghost use Rattle.storage.specs.Questions.{operation_number, operation_of};

use crate::spread::spread;
use model::Root;

/// What is worked out of diagrams.
#[derive(Clone, Copy, Debug, PartialEq, Eq)]
pub enum Operation {
    Sum = 0,
    Minus = 1,
    Times = 2,
}

impl From<Operation> for u8 {
    ghost from_gives = { λ operation number. number ≡ operation_number operation };

    fn from(operation: Operation) -> u8 {
        operation as u8
    }
}

/// An operation and its roots.
#[derive(Clone, Copy, Debug, PartialEq, Eq)]
pub enum Question {
    Sum(Root, Root),
    Minus(Root),
    Times(Root, Root),
}

impl Question {
    pub fn operation(self) -> Operation
        ensures { result ≡ operation_of self }
    {
        match self {
            Question::Sum(_, _) => Operation::Sum,
            Question::Minus(_) => Operation::Minus,
            Question::Times(_, _) => Operation::Times,
        }
    }

    // A number of 32 bits by which the question is looked for.
    pub(crate) fn hash(self) -> u32
        ensures { result ≡ question_hash self }
    {
        let kind = u8::from(self.operation());
        match self {
            Question::Sum(a, b) | Question::Times(a, b) => spread(kind, &a, &b),
            // a minus has no second root
            Question::Minus(a) => spread(kind, &a, &Root::Leaf(0)),
        }
    }
}

/// A question with its answer.
#[derive(Clone, Copy, Debug, PartialEq, Eq)]
pub struct Answered {
    pub question: Question,
    pub answer: Root,
}
