ghost use Rattle.std.specs.Prelude.{◌≡◌, ◌≤◌, MatchResult};
ghost use Rattle.model.specs.Refusals.{fault};
ghost use Rattle.model.specs.declared.fault.Refusal.TheVariants.{NoForm};
ghost use Rattle.table.specs.Tables.{keys_of};
ghost use Rattle.sheets.specs.Cursors.{ahead};
ghost use Rattle.sheets.specs.Drafts.{SameLists};
ghost use Rattle.sheets.specs.FormulaEnds.{EndsFormula, EndsPart, EndsTerm, NoFactor, NoFormula, NoPart, NoTerm};
ghost use Rattle.sheets.specs.FormulaReads.{ReadFactor, ReadFormula, ReadPart, ReadTerm, Signals};
ghost use Rattle.sheets.specs.Tokens.{brackets};

use crate::cursor::Cursor;
use crate::draft::Draft;
use crate::token::Token;
use model::{Fault, Gate, GateKind, Refusal};

// The readers of formulas, one for each level, which joins by signs and gates of its own (a minus makes two). One
// reader for all would have to be told the level, its signs and its gates at each call.
//
// Each puts the gates of what it reads into the draft and answers the signal, and but for a factor also the token that
// comes after. They go deeper with each bracket and each not that is read, and so no deeper than the line has of these,
// which `few` bounds.
//
// `signals` is a fact of a draft and a line together, which the type of neither can say.
impl Cursor<'_> {
    // Parts joined by `|`.
    #[cycle(factor_formula_part_term)]
    pub(crate) fn formula(&mut self, draft: &mut Draft) -> Result<(u32, Token), Fault>
        requires few { brackets (ahead self.old) ≤ 32 }
        requires signals { Signals draft.old (ahead self.old) }
        ensures stays { self.new.line ≡ self.old.line }
        ensures lent { SameLists draft.old draft.new }
        ensures read { MatchResult result (λ p. ReadFormula (keys_of draft.old.names.now) draft.old (ahead self.old) p.0 p.1 (ahead self.new) draft.new × EndsFormula p.1) (λ f. (f ≡ fault NoForm self.old.line) × NoFormula (ahead self.old)) }
    {
        let (mut signal, mut token) = self.part(draft)?;
        while let Token::Or = token {
            let (right, next) = self.part(draft)?;
            signal = draft.emit(Gate::binary(GateKind::Or, signal, right));
            token = next;
        }
        Ok((signal, token))
    }

    // Terms joined by `+` or `-`.
    #[cycle(factor_formula_part_term)]
    fn part(&mut self, draft: &mut Draft) -> Result<(u32, Token), Fault>
        requires few { brackets (ahead self.old) ≤ 32 }
        requires signals { Signals draft.old (ahead self.old) }
        ensures stays { self.new.line ≡ self.old.line }
        ensures lent { SameLists draft.old draft.new }
        ensures read { MatchResult result (λ p. ReadPart (keys_of draft.old.names.now) draft.old (ahead self.old) p.0 p.1 (ahead self.new) draft.new × EndsPart p.1) (λ f. (f ≡ fault NoForm self.old.line) × NoPart (ahead self.old)) }
    {
        let (mut signal, mut token) = self.term(draft)?;
        loop {
            match token {
                Token::Plus => {
                    let (right, next) = self.term(draft)?;
                    signal = draft.emit(Gate::binary(GateKind::Sum, signal, right));
                    token = next;
                }
                Token::Minus => {
                    let (right, next) = self.term(draft)?;
                    let minus = draft.emit(Gate::unary(GateKind::Minus, right));
                    signal = draft.emit(Gate::binary(GateKind::Sum, signal, minus));
                    token = next;
                }
                _ => return Ok((signal, token)),
            }
        }
    }

    // Factors joined by `*`.
    #[cycle(factor_formula_part_term)]
    fn term(&mut self, draft: &mut Draft) -> Result<(u32, Token), Fault>
        requires few { brackets (ahead self.old) ≤ 32 }
        requires signals { Signals draft.old (ahead self.old) }
        ensures stays { self.new.line ≡ self.old.line }
        ensures lent { SameLists draft.old draft.new }
        ensures read { MatchResult result (λ p. ReadTerm (keys_of draft.old.names.now) draft.old (ahead self.old) p.0 p.1 (ahead self.new) draft.new × EndsTerm p.1) (λ f. (f ≡ fault NoForm self.old.line) × NoTerm (ahead self.old)) }
    {
        let mut signal = self.factor(draft)?;
        let mut token = self.next_token()?;
        while let Token::Times = token {
            let right = self.factor(draft)?;
            signal = draft.emit(Gate::binary(GateKind::Times, signal, right));
            token = self.next_token()?;
        }
        Ok((signal, token))
    }

    // `!` and a factor, a formula in brackets, a name or a number.
    #[cycle(factor_formula_part_term)]
    fn factor(&mut self, draft: &mut Draft) -> Result<u32, Fault>
        requires few { brackets (ahead self.old) ≤ 32 }
        requires signals { Signals draft.old (ahead self.old) }
        ensures stays { self.new.line ≡ self.old.line }
        ensures lent { SameLists draft.old draft.new }
        ensures read { MatchResult result (λ signal. ReadFactor (keys_of draft.old.names.now) draft.old (ahead self.old) signal (ahead self.new) draft.new) (λ f. (f ≡ fault NoForm self.old.line) × NoFactor (ahead self.old)) }
    {
        match self.next_token()? {
            Token::Not => {
                let operand = self.factor(draft)?;
                Ok(draft.emit(Gate::unary(GateKind::Not, operand)))
            }
            Token::Open => {
                let (signal, token) = self.formula(draft)?;
                match token {
                    Token::Close => Ok(signal),
                    _ => Err(self.refuse(Refusal::NoForm)),
                }
            }
            Token::Identifier(name) => Ok(draft.signal_of(name)),
            Token::Number(value) => Ok(draft.emit(Gate::constant(value))),
            _ => Err(self.refuse(Refusal::NoForm)),
        }
    }
}
