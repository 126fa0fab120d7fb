ghost use Rattle.std.specs.Prelude.{◌≡◌, ◌≤◌, length, replicate, Ok, Err, codes, MatchResult};
ghost use Rattle.model.specs.Orders.{facts_of};
ghost use Rattle.model.specs.Refusals.{fault};
ghost use Rattle.model.specs.Spelling.{spelling};
ghost use Rattle.model.specs.declared.fault.Refusal.{Refusal as RefusalOf};
ghost use Rattle.std.specs.Str.{bytes_eq};
ghost use Rattle.table.specs.Cells.{empty_cell};
ghost use Rattle.table.specs.Tables.{keys_of};
ghost use Rattle.sheets.specs.Cursors.{ahead, current, to_come};
ghost use Rattle.sheets.specs.Drafts.{LineRefused, ReadDefinition, ReadLines, ReadOutput, SameLists, Stepped, Tidy};
ghost use Rattle.sheets.specs.FormulaLaws.{FormulaLaws};
ghost use Rattle.sheets.specs.RuleLaws.{ReadsBack, RuleLaws};
ghost use Rattle.sheets.specs.RuleSheets.{room_of, ReadsLists, ReadsRules};
ghost use Rattle.sheets.specs.SheetWorth.{ReadMeaning};
ghost use Rattle.sheets.specs.Tokens.{brackets, tokens};

use crate::counts::Counts;
use crate::cursor::Cursor;
use crate::draft::Draft;
use crate::lines::Lines;
use crate::notation::Notation;
use crate::symbol::Symbol;
use crate::symbols::enter_facts;
use crate::token::Equals;
use model::{Fault, Gate, Name, Order, Output};
use table::{Cell, Key, Table};

/// Reads the text of a rule sheet over an order into lent lists, from the front, and answers how many gates and
/// outputs it has. What is not used of the lists is left empty, and all of them on refusal. The name cells are
/// working memory, and always left empty.
pub fn read_rules(
    notation: Notation,
    text: &[u8],
    order: &Order,
    names: &mut [Cell<Symbol>],
    gates: &mut [Gate],
    outputs: &mut [Output],
) -> Result<Counts, Fault>
    ensures read { ReadsRules notation (facts_of order.now) (room_of (length names.old) (length gates.old) (length outputs.old)) text.now result gates.new outputs.new }
    ensures names { names.new ≡ replicate (length names.old) empty_cell }
    ensures written { ReadsBack notation (facts_of order.now) (room_of (length names.old) (length gates.old) (length outputs.old)) text.now result gates.new outputs.new }
    ensures meaning { ReadMeaning notation (facts_of order.now) text.now result gates.new outputs.new }
    ensures laws { RuleLaws }
    ensures formulas { FormulaLaws }
{
    let outcome = read_lists(notation, text, order, names, gates, outputs);
    names.fill(Cell::empty());
    if outcome.is_err() {
        gates.fill(Gate::empty());
        outputs.fill(Output::empty());
    }
    outcome
}

// The same, but for what a refusal leaves.
fn read_lists(
    notation: Notation,
    text: &[u8],
    order: &Order,
    names: &mut [Cell<Symbol>],
    gates: &mut [Gate],
    outputs: &mut [Output],
) -> Result<Counts, Fault>
    ensures { ReadsLists notation (facts_of order.now) (room_of (length names.old) (length gates.old) (length outputs.old)) text.now gates.new outputs.new result }
{
    let lines = Lines::open(text, notation.mark())?;
    let mut names = Table::open(names);
    enter_facts(&mut names, order)?;
    let mut draft = Draft::new(order.len(), &mut names, gates, outputs);
    read_lines(notation, lines, &mut draft)
}

// Reads the lines after the first.
fn read_lines(notation: Notation, lines: Lines, draft: &mut Draft) -> Result<Counts, Fault>
    requires tidy { Tidy draft.old }
    ensures lent { SameLists draft.old draft.new }
    ensures read { ReadLines notation draft.old (to_come lines.entry) draft.new result }
{
    for line in lines {
        read_line(notation, line, draft)?;
    }
    Ok(draft.counts())
}

// Reads one line.
fn read_line(notation: Notation, mut line: Cursor, draft: &mut Draft) -> Result<(), Fault>
    requires tidy { Tidy draft.old }
    ensures lent { SameLists draft.old draft.new }
    ensures step { MatchResult result (λ _. Stepped notation draft.old (ahead line.entry) draft.new) (λ f. LineRefused notation draft.old (current line.entry) f) }
{
    line.check_brackets()?;
    let name = line.take()?;
    if begins_output(&name) {
        read_output(&mut line, draft)
    } else {
        read_definition(notation, name, &mut line, draft)
    }
}

// Whether a line that begins with this name is tried as an output line. Any other is tried as a definition.
fn begins_output(name: &Name) -> bool
    ensures { result ≡ bytes_eq (spelling name.now) (codes "out") }
{
    name.as_bytes() == b"out".as_slice()
}

// The rest of an output line: a name.
fn read_output(cursor: &mut Cursor, draft: &mut Draft) -> Result<(), Fault>
    ensures stays { cursor.new.line ≡ cursor.old.line }
    ensures lent { SameLists draft.old draft.new }
    ensures output { MatchResult result (λ _. ReadOutput (keys_of draft.old.names.now) draft.old (ahead cursor.old) draft.new (Ok tt)) (λ f. (refusal : RefusalOf) × (f ≡ fault refusal cursor.old.line) × ReadOutput (keys_of draft.old.names.now) draft.old (ahead cursor.old) draft.new (Err refusal)) }
{
    let name = cursor.take_last()?;
    cursor.placed(draft.list_output(name))
}

// The rest of a definition: `=` and a right-hand side.
fn read_definition(
    notation: Notation,
    name: Name,
    cursor: &mut Cursor,
    draft: &mut Draft,
) -> Result<(), Fault>
    requires tidy { Tidy draft.old }
    requires few { brackets (ahead cursor.old) ≤ 32 }
    ensures stays { cursor.new.line ≡ cursor.old.line }
    ensures lent { SameLists draft.old draft.new }
    ensures definition { MatchResult result (λ _. ReadDefinition notation draft.old name (ahead cursor.old) draft.new (Ok tt)) (λ f. (refusal : RefusalOf) × (f ≡ fault refusal cursor.old.line) × ReadDefinition notation draft.old name (ahead cursor.old) draft.new (Err refusal)) }
{
    cursor.take::<Equals>()?;
    let signal = cursor.side(notation, draft)?;
    cursor.placed(draft.define(name, signal))
}
