ghost use Rattle.std.specs.Prelude.{◌≡◌, ◌+◌, ◌^◌, ◌<◌, ◌≤◌, [], length, replicate, slice_set};
ghost use Rattle.sheets.specs.Drafts.{gates_of, outputs_of, Others, SameLists, Tidy};

use super::Draft;
use crate::counts::Counts;
use crate::symbol::Symbol;
use model::{Gate, Output};
use table::Table;

// Writes one value, if the list has that place. By index: after a slice's `get_mut` a proof knows its length alone.
fn put<T: Copy>(list: &mut [T], place: usize, value: T)
    ensures { list.new ≡ slice_set list.old place value }
{
    if place < list.len() {
        list[place] = value;
    }
}

impl<'a, 'b> Draft<'a, 'b> {
    // Nothing is read yet: the lists are emptied, whatever they held.
    pub(crate) fn new(
        facts: usize,
        names: &'a mut Table<'b, Symbol>,
        gates: &'a mut [Gate],
        outputs: &'a mut [Output],
    ) -> Draft<'a, 'b>
        requires { facts ≤ 40 }
        ensures tidy { Tidy result }
        ensures names { result.names.now ≡ names.old }
        ensures gates { gates_of result ≡ [] }
        ensures outputs { outputs_of result ≡ [] }
        ensures facts { result.facts ≡ facts }
        ensures room { (length result.gates.now ≡ length gates.old) × (length result.outputs.now ≡ length outputs.old) }
        ensures lent_gates { result.gates.ghost_name ≡ gates.entry.ghost_name }
        ensures lent_outputs { result.outputs.ghost_name ≡ outputs.entry.ghost_name }
    {
        gates.fill(Gate::empty());
        outputs.fill(Output::empty());
        Draft {
            names,
            gates,
            outputs,
            facts,
            gate_count: 0,
            output_count: 0,
            unknown: false,
        }
    }

    // One gate more, which the list takes if it has room; answers its signal.
    pub(crate) fn emit(&mut self, gate: Gate) -> u32
        requires { self.old.facts + self.old.gate_count < 2 ^ 32 }
        ensures signal { result ≡ self.old.facts + self.old.gate_count }
        ensures gates { self.new.gates.now ≡ slice_set self.old.gates.now self.old.gate_count gate }
        ensures count { self.new.gate_count ≡ self.old.gate_count + 1 }
        ensures unknown { self.new.unknown ≡ self.old.unknown }
        ensures others { Others self.old self.new }
        ensures lent { SameLists self.old self.new }
    {
        let place = self.gate_count;
        put(self.gates, place, gate);
        self.gate_count = place + 1;
        (self.facts + place) as u32
    }

    pub(crate) fn counts(&self) -> Counts
        ensures { result ≡ record { gates = self.now.gate_count; outputs = self.now.output_count } }
    {
        Counts {
            gates: self.gate_count,
            outputs: self.output_count,
        }
    }
}
