ghost use Rattle.std.specs.Prelude.{◌≡◌, ◌≤◌, true, drop, length, Ok, Err, MatchResult, ◌==◌, ◌≢◌, slice_index};
ghost use Rattle.std.specs.List.{prefix_len};
ghost use Rattle.model.specs.Names.{begins, is_word_byte};
ghost use Rattle.model.specs.Refusals.{fault};
ghost use Rattle.model.specs.declared.fault.Refusal.TheVariants.{NoForm};
ghost use Rattle.sheets.specs.Cursors.{ahead};
ghost use Rattle.sheets.specs.Tokens.{Next, Stuck};

use super::Cursor;
use crate::number::number;
use crate::token::{Token, single};
use model::{Fault, Name, Refusal, is_word_byte};

impl Cursor<'_> {
    // The next token of the line, or a refusal if a run there is neither a name nor a number.
    pub(crate) fn next_token(&mut self) -> Result<Token, Fault>
        ensures stays { self.new.line ≡ self.old.line }
        ensures next { MatchResult result (λ t. Next (ahead self.old) t (ahead self.new)) (λ f. (f ≡ fault NoForm self.old.line) × Stuck (ahead self.old)) }
    {
        self.skip_spaces();
        let Some((b, rest)) = self.rest.split_first() else {
            return Ok(Token::LineEnd);
        };
        if is_word_byte(*b) {
            return self.word();
        }
        self.rest = rest;
        Ok(single(*b as char))
    }

    pub(crate) fn refuse(&self, refusal: Refusal) -> Fault
        ensures { result ≡ fault refusal self.now.line }
    {
        refusal.at(self.line)
    }

    // An answer about the line, with its place if it is a refusal.
    pub(crate) fn placed(&self, answer: Result<(), Refusal>) -> Result<(), Fault>
        ensures { MatchResult answer (λ x. result ≡ Ok x) (λ refusal. result ≡ Err (fault refusal self.now.line)) }
    {
        let line = self.line;
        answer.map_err(|refusal| refusal.at(line))
    }

    fn skip_spaces(&mut self)
        ensures stays { self.new.line ≡ self.old.line }
        ensures ahead { ahead self.new ≡ ahead self.old }
        ensures stops { slice_index self.new.rest.now 0 ≢ 32 }
    {
        self.rest = after_spaces(self.rest);
    }

    // The run that stands here, as a name or a number.
    fn word(&mut self) -> Result<Token, Fault>
        requires { begins is_word_byte self.old.rest.now ≡ true }
        ensures stays { self.new.line ≡ self.old.line }
        ensures next { MatchResult result (λ t. Next (ahead self.old) t (ahead self.new)) (λ f. (f ≡ fault NoForm self.old.line) × Stuck (ahead self.old)) }
    {
        let (word, rest) = self.rest.split_at(word_bytes(self.rest));
        self.rest = rest;
        if let Ok(name) = Name::try_from(word) {
            return Ok(Token::Identifier(name));
        }
        number(word)
            .map(Token::Number)
            .ok_or(self.refuse(Refusal::NoForm))
    }
}

// What follows the spaces in front.
pub(super) fn after_spaces(bytes: &[u8]) -> &[u8]
    ensures { result.now ≡ drop (prefix_len (λ b. b == 32) bytes.now) bytes.now }
{
    bytes.split_at(spaces(bytes)).1
}

fn spaces(bytes: &[u8]) -> usize
    ensures spaces { result ≡ prefix_len (λ b. b == 32) bytes.now }
    ensures inside { result ≤ length bytes.now }
{
    bytes.iter().take_while(|b| **b == b' ').count()
}

// How long the run is that the bytes begin with.
fn word_bytes(bytes: &[u8]) -> usize
    ensures run { result ≡ prefix_len is_word_byte bytes.now }
    ensures inside { result ≤ length bytes.now }
{
    bytes.iter().take_while(|b| is_word_byte(**b)).count()
}
