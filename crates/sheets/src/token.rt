ghost use Rattle.std.specs.Prelude.{◌≡◌, ◌≢◌, MatchOption};
ghost use Rattle.sheets.specs.Tokens.{sign};
ghost use Rattle.sheets.specs.declared.token.Token.{Token as TokenOf};
ghost use Rattle.sheets.specs.declared.token.Token.TheVariants.{Equals as EqualsSign, Identifier, LineEnd as EndOfLine, Number, TypeLetter};

use model::{Decomposition, Name};

/// A token of a line.
#[derive(Clone, Copy)]
pub(crate) enum Token {
    /// There is no token left on the line. As an `Option` of a token it would put a second level into every `match`.
    LineEnd,
    Identifier(Name),
    Number(u32),
    TypeLetter(Decomposition),
    Equals,
    Or,
    Plus,
    Minus,
    Times,
    Not,
    Open,
    Close,
    /// A character that has no meaning of its own in any sheet.
    Other(char),
}

/// The token `=`, which holds nothing.
#[derive(Clone, Copy)]
pub(crate) struct Equals;

/// The end of a line.
#[derive(Clone, Copy)]
pub(crate) struct LineEnd;

// No `TryFrom<Token>`: `token_of` goes from a value to its token, which `TryFrom` has no member for, and `take` needs both
// ways in its contract.
/// What the tokens of one kind hold.
pub(crate) trait Held: Copy {
    ghost token_of: { Self → TokenOf };

    fn held(token: Token) -> Option<Self>
        ensures { MatchOption result ((v : Self) → token ≢ token_of v) (λ v. token ≡ token_of v) };
}

impl Held for Name {
    ghost token_of = { Identifier };

    fn held(token: Token) -> Option<Name> {
        match token {
            Token::Identifier(name) => Some(name),
            _ => None,
        }
    }
}

impl Held for u32 {
    ghost token_of = { Number };

    fn held(token: Token) -> Option<u32> {
        match token {
            Token::Number(value) => Some(value),
            _ => None,
        }
    }
}

impl Held for Decomposition {
    ghost token_of = { TypeLetter };

    fn held(token: Token) -> Option<Decomposition> {
        match token {
            Token::TypeLetter(decomposition) => Some(decomposition),
            _ => None,
        }
    }
}

impl Held for Equals {
    ghost token_of = { λ _. EqualsSign };

    fn held(token: Token) -> Option<Equals> {
        match token {
            Token::Equals => Some(Equals),
            _ => None,
        }
    }
}

impl Held for LineEnd {
    ghost token_of = { λ _. EndOfLine };

    fn held(token: Token) -> Option<LineEnd> {
        match token {
            Token::LineEnd => Some(LineEnd),
            _ => None,
        }
    }
}

/// The token of a character that belongs to no name and no number.
pub(crate) fn single(c: char) -> Token
    ensures { result ≡ sign c }
{
    match c {
        '=' => Token::Equals,
        '|' => Token::Or,
        '+' => Token::Plus,
        '-' => Token::Minus,
        '*' => Token::Times,
        '!' => Token::Not,
        '(' => Token::Open,
        ')' => Token::Close,
        _ => Decomposition::try_from(c).map_or(Token::Other(c), Token::TypeLetter),
    }
}
