ghost use Rattle.std.specs.Prelude.{◌≡◌, Ok};
ghost use Rattle.sheets.specs.Notations.{mark_of, marked_as};
ghost use Rattle.sheets.specs.Sheets.{Opens};
ghost use Rattle.sheets.specs.declared.notation.Notation.{Notation as NotationOf};

/// How a rule sheet writes what a name stands for.
#[derive(Clone, Copy, Debug, PartialEq, Eq)]
pub enum Notation {
    /// A gate word and its arguments.
    Gates,
    /// A formula.
    Formulas,
}

impl Notation {
    // Every text has one, so this is no `TryFrom`.
    /// The notation of a text by its mark. A text with no mark of a rule sheet is taken for gates, and refused when
    /// it is read as such.
    pub fn of_text(text: &[u8]) -> Notation
        ensures mark { result ≡ marked_as text.now }
        ensures opens { (n : NotationOf) → Opens (mark_of n) text.now (Ok tt) → result ≡ n }
    {
        if text.starts_with(Notation::Formulas.mark()) {
            Notation::Formulas
        } else {
            Notation::Gates
        }
    }

    // The mark of the first line.
    pub(crate) fn mark(self) -> &'static [u8]
        ensures { result.now ≡ mark_of self }
    {
        match self {
            Notation::Gates => b"GAT",
            Notation::Formulas => b"FRM",
        }
    }
}
