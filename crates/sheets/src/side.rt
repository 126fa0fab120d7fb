ghost use Rattle.std.specs.Prelude.{◌≡◌, ◌≤◌, ℕ, List, [], ◌∷◌, length, decimal, MatchResult, ◌≢◌};
ghost use Rattle.model.specs.Gates.{constant_gate, word_of};
ghost use Rattle.model.specs.Refusals.{fault};
ghost use Rattle.model.specs.declared.fault.Refusal.TheVariants.{NoForm};
ghost use Rattle.model.specs.declared.gate.GateKind.{GateKind as KindOf};
ghost use Rattle.table.specs.Tables.{keys_of};
ghost use Rattle.sheets.specs.Cursors.{ahead};
ghost use Rattle.sheets.specs.Drafts.{ReadBinary, ReadGate, ReadSide, ReadUnary, SameLists, Tidy};
ghost use Rattle.sheets.specs.Formulas.{Formula, spell};
ghost use Rattle.sheets.specs.Notations.{Side, side_tokens};
ghost use Rattle.sheets.specs.Sides.{GateSide, gate_tokens, Numeral, Word, written};
ghost use Rattle.sheets.specs.Tokens.{brackets};
ghost use Rattle.sheets.specs.declared.notation.Notation.TheVariants.{Gates, Formulas};

use crate::cursor::Cursor;
use crate::draft::Draft;
use crate::notation::Notation;
use crate::token::Token;
use model::{Fault, Gate, GateKind, Name, Refusal};

// What follows the `=` of a definition, to the end of the line.
impl Cursor<'_> {
    // Puts the gates of a right-hand side into the draft, and answers the signal that it stands for.
    pub(crate) fn side(&mut self, notation: Notation, draft: &mut Draft) -> Result<u32, Fault>
        requires tidy { Tidy draft.old }
        requires few { brackets (ahead self.old) ≤ 32 }
        ensures stays { self.new.line ≡ self.old.line }
        ensures lent { SameLists draft.old draft.new }
        ensures side { MatchResult result (λ signal. ReadSide notation (keys_of draft.old.names.now) draft.old (ahead self.old) signal draft.new) (λ f. (f ≡ fault NoForm self.old.line) × ((s : Side notation) → ahead self.old ≢ side_tokens notation s)) }
    {
        // a `match`: the sheet's first line decides, and the two kinds are closed
        match notation {
            Notation::Gates => self.gate_side(draft),
            Notation::Formulas => self.formula_side(draft),
        }
    }

    fn formula_side(&mut self, draft: &mut Draft) -> Result<u32, Fault>
        requires tidy { Tidy draft.old }
        requires few { brackets (ahead self.old) ≤ 32 }
        ensures stays { self.new.line ≡ self.old.line }
        ensures lent { SameLists draft.old draft.new }
        ensures side { MatchResult result (λ signal. ReadSide Formulas (keys_of draft.old.names.now) draft.old (ahead self.old) signal draft.new) (λ f. (f ≡ fault NoForm self.old.line) × ((g : Formula) → ahead self.old ≢ spell g)) }
    {
        let (signal, token) = self.formula(draft)?;
        match token {
            Token::LineEnd => Ok(signal),
            _ => Err(self.refuse(Refusal::NoForm)),
        }
    }

    fn gate_side(&mut self, draft: &mut Draft) -> Result<u32, Fault>
        requires tidy { Tidy draft.old }
        ensures stays { self.new.line ≡ self.old.line }
        ensures lent { SameLists draft.old draft.new }
        ensures side { MatchResult result (λ signal. ReadSide Gates (keys_of draft.old.names.now) draft.old (ahead self.old) signal draft.new) (λ f. (f ≡ fault NoForm self.old.line) × ((s : GateSide) → ahead self.old ≢ gate_tokens s)) }
    {
        let kind = self.gate_kind()?;
        let gate = self.gate(kind, draft)?;
        Ok(draft.emit(gate))
    }

    // The word of a gate.
    fn gate_kind(&mut self) -> Result<GateKind, Fault>
        ensures stays { self.new.line ≡ self.old.line }
        ensures word { MatchResult result (λ k. ahead self.old ≡ word_of k ∷ ahead self.new) (λ f. (f ≡ fault NoForm self.old.line) × ((k : KindOf) (rest : List (List ℕ)) → ahead self.old ≢ word_of k ∷ rest)) }
    {
        let word: Name = self.take()?;
        let refused = self.refuse(Refusal::NoForm);
        GateKind::try_from(word.as_bytes()).map_err(|_| refused)
    }

    // The arguments of a gate of this kind, with which the line ends.
    fn gate(&mut self, kind: GateKind, draft: &mut Draft) -> Result<Gate, Fault>
        ensures stays { self.new.line ≡ self.old.line }
        ensures lent { SameLists draft.old draft.new }
        ensures gate { MatchResult result (λ g. ReadGate (keys_of draft.old.names.now) draft.old (word_of kind ∷ ahead self.old) g draft.new) (λ f. (f ≡ fault NoForm self.old.line) × ((s : GateSide) → word_of kind ∷ ahead self.old ≢ gate_tokens s)) }
    {
        match kind {
            GateKind::Const => self.constant(),
            GateKind::Minus | GateKind::Not => self.unary(kind, draft),
            GateKind::Sum | GateKind::Times | GateKind::Or => self.binary(kind, draft),
        }
    }

    fn constant(&mut self) -> Result<Gate, Fault>
        ensures stays { self.new.line ≡ self.old.line }
        ensures gate { MatchResult result (λ g. (n : Numeral) × (ahead self.old ≡ decimal n.value ∷ []) × (g ≡ constant_gate n.value)) (λ f. (f ≡ fault NoForm self.old.line) × ((n : Numeral) → ahead self.old ≢ decimal n.value ∷ [])) }
    {
        let number = self.take_last()?;
        Ok(Gate::constant(number))
    }

    fn unary(&mut self, kind: GateKind, draft: &mut Draft) -> Result<Gate, Fault>
        ensures stays { self.new.line ≡ self.old.line }
        ensures lent { SameLists draft.old draft.new }
        ensures gate { MatchResult result (λ g. ReadUnary (keys_of draft.old.names.now) draft.old kind (ahead self.old) g draft.new) (λ f. (f ≡ fault NoForm self.old.line) × ((a : Word) → ahead self.old ≢ written a ∷ [])) }
    {
        let argument = self.take_last()?;
        let signal = draft.signal_of(argument);
        Ok(Gate::unary(kind, signal))
    }

    fn binary(&mut self, kind: GateKind, draft: &mut Draft) -> Result<Gate, Fault>
        ensures stays { self.new.line ≡ self.old.line }
        ensures lent { SameLists draft.old draft.new }
        ensures gate { MatchResult result (λ g. ReadBinary (keys_of draft.old.names.now) draft.old kind (ahead self.old) g draft.new) (λ f. (f ≡ fault NoForm self.old.line) × ((a b : Word) → ahead self.old ≢ written a ∷ (written b ∷ []))) }
    {
        let first = self.take()?;
        let second = self.take_last()?;
        let left = draft.signal_of(first);
        let right = draft.signal_of(second);
        Ok(Gate::binary(kind, left, right))
    }
}
