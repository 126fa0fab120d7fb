ghost use Rattle.std.specs.Prelude.{◌≡◌, List, ℕ, [], MatchResult};
ghost use Rattle.model.specs.Refusals.{fault};
ghost use Rattle.model.specs.declared.fault.Refusal.TheVariants.{NoForm};
ghost use Rattle.sheets.specs.Cursors.{ahead};
ghost use Rattle.sheets.specs.Tokens.{Next};

use super::Cursor;
use crate::token::{Held, LineEnd};
use model::{Fault, Refusal};

// A token of one kind, or a refusal of the line.
impl Cursor<'_> {
    // The next token, as what it holds.
    pub(crate) fn take<T: Held>(&mut self) -> Result<T, Fault>
        ensures stays { self.new.line ≡ self.old.line }
        ensures next { MatchResult result (λ v. Next (ahead self.old) (T.token_of v) (ahead self.new)) (λ f. (f ≡ fault NoForm self.old.line) × ((v : T) (rest : List (List ℕ)) → Next (ahead self.old) (T.token_of v) rest → ⊥)) }
    {
        let token = self.next_token()?;
        T::held(token).ok_or(self.refuse(Refusal::NoForm))
    }

    // The next token, as what it holds, with which the line ends.
    pub(crate) fn take_last<T: Held>(&mut self) -> Result<T, Fault>
        ensures stays { self.new.line ≡ self.old.line }
        ensures next { MatchResult result (λ v. Next (ahead self.old) (T.token_of v) []) (λ f. (f ≡ fault NoForm self.old.line) × ((v : T) → Next (ahead self.old) (T.token_of v) [] → ⊥)) }
    {
        let value = self.take()?;
        self.take::<LineEnd>()?;
        Ok(value)
    }
}
