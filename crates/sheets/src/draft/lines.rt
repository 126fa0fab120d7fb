ghost use Rattle.std.specs.Prelude.{◌≡◌, not, ◌||◌, Decides};
ghost use Rattle.std.specs.List.{list_any};
ghost use Rattle.model.proofs.Spelling.{alike};
ghost use Rattle.model.specs.Spelling.{spelling};
ghost use Rattle.table.specs.Tables.{keys_of};
ghost use Rattle.sheets.specs.Drafts.{outputs_of, Defines, HasRoom, Lists, Others, SameLists};
ghost use Rattle.sheets.specs.RuleSheets.{lists};
ghost use Rattle.sheets.specs.Symbols.{known, signal_of, signal_or_zero};

use super::{Draft, MAX_GATES};
use crate::symbol::Symbol;
use crate::symbols::add;
use model::{Name, Output, Refusal};

impl Draft<'_, '_> {
    // The signal that a name stands for. One that is not known is noted, and stands for 0.
    pub(crate) fn signal_of(&mut self, name: Name) -> u32
        ensures signal { result ≡ signal_or_zero (keys_of self.old.names.now) (spelling name) }
        ensures unknown { self.new.unknown ≡ (self.old.unknown || not (known (keys_of self.old.names.now) (spelling name))) }
        ensures gates { self.new.gates.now ≡ self.old.gates.now }
        ensures count { self.new.gate_count ≡ self.old.gate_count }
        ensures others { Others self.old self.new }
        ensures lent { SameLists self.old self.new }
    {
        match self.look_up(name) {
            Some(signal) => signal,
            None => {
                self.unknown = true;
                0
            }
        }
    }

    // The signal that a name stands for, if it is known.
    fn look_up(&self, name: Name) -> Option<u32>
        ensures { result ≡ signal_of (keys_of self.now.names.now) (spelling name) }
    {
        let number = self.names.find(&Symbol { name, signal: 0 })?;
        let symbol = self.names.key_at(number)?;
        Some(symbol.signal)
    }

    // Lets a name stand for a signal, if the line of which both came passes the checks.
    pub(crate) fn define(&mut self, name: Name, signal: u32) -> Result<(), Refusal>
        ensures judged { Defines self.old.names.now self.old name signal self.new result }
        ensures lent { SameLists self.old self.new }
    {
        if self.unknown {
            return Err(Refusal::UnknownName);
        }
        if self.look_up(name).is_some() {
            return Err(Refusal::NamedTwice);
        }
        if !self.has_room() {
            return Err(Refusal::SheetTooLarge);
        }
        add(self.names, Symbol { name, signal });
        Ok(())
    }

    // Whether the gates, those of this line too, and one name more can be held.
    fn has_room(&self) -> bool
        ensures { Decides result (HasRoom self.now.names.now self.now) }
    {
        self.gate_count <= self.gates.len()
            && self.gate_count <= MAX_GATES
            && self.names.len() < self.names.capacity()
    }

    // Lists an output by its name, if the line passes the checks.
    pub(crate) fn list_output(&mut self, name: Name) -> Result<(), Refusal>
        ensures judged { Lists (keys_of self.old.names.now) self.old name self.new result }
        ensures lent { SameLists self.old self.new }
    {
        let signal = self.look_up(name).ok_or(Refusal::UnknownName)?;
        if self.lists(name) {
            return Err(Refusal::NamedTwice);
        }
        let place = self.output_count;
        if place == self.outputs.len() {
            return Err(Refusal::SheetTooLarge);
        }
        // by index, as in `put`
        self.outputs[place] = Output { name, signal };
        self.output_count = place + 1;
        Ok(())
    }

    // Whether an output with this name is listed.
    fn lists(&self, name: Name) -> bool
        ensures { result ≡ lists (outputs_of self.now) (spelling name) }
    {
        is_listed(&self.outputs[0..self.output_count], name)
    }
}

// Whether one of the outputs has this name.
fn is_listed(outputs: &[Output], name: Name) -> bool
    ensures { result ≡ list_any (λ o. alike o.name name) outputs.now }
{
    outputs.iter().any(|output| output.name == name)
}
