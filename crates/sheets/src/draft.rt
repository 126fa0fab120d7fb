ghost use Rattle.std.specs.Prelude.{◌≡◌, ◌-◌, ◌≤◌, drop, length, replicate};
ghost use Rattle.model.specs.Gates.{empty_gate};
ghost use Rattle.model.specs.Outputs.{empty_output};

use crate::symbol::Symbol;
use model::{Gate, Output};
use table::Table;

mod edits;
mod lines;

// The most gates that a sheet may have.
const MAX_GATES: usize = 65536;

// The names, gates and outputs that are read so far of a rule sheet, in the table and the lists that are lent for them:
// memory is the caller's and of a fixed size, so the counts stand beside the lists. What holds between two lines, and
// not while a line is read, is the clause `Tidy`; `lent` and `others` relate a draft to what it was, which no type can
// say.
#[derive(Drop)]
pub(crate) struct Draft<'a, 'b> {
    names: &'a mut Table<'b, Symbol>,
    gates: &'a mut [Gate],
    outputs: &'a mut [Output],
    // how many facts the order has
    facts: usize,
    // how many gates there are, also those that the list has no room for
    gate_count: usize,
    output_count: usize,
    // whether a name was used that is not known: it is refused only when the line's form was judged, so reading goes on
    unknown: bool,
    ghost few_facts: { facts ≤ 40 },
    ghost outputs_fit: { output_count ≤ length outputs.now },
    // what is not used is empty
    ghost gates_rest: { drop gate_count gates.now ≡ replicate (length gates.now - gate_count) empty_gate },
    ghost outputs_rest: { drop output_count outputs.now ≡ replicate (length outputs.now - output_count) empty_output },
}
