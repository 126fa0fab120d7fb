ghost use Rattle.std.specs.Prelude.{◌≡◌, ◌<◌, ◌≤◌, [], ◌∷◌, ◌++◌, length, None, MatchResult, OnOk};
ghost use Rattle.model.specs.Orders.{facts_of};
ghost use Rattle.model.specs.Refusals.{fault};
ghost use Rattle.model.specs.Spelling.{spelling};
ghost use Rattle.model.specs.declared.fault.Refusal.TheVariants.{TooFewNameCells};
ghost use Rattle.table.specs.Tables.{capacity_of, keys_of};
ghost use Rattle.sheets.specs.RuleSheets.{fact_symbols};
ghost use Rattle.sheets.specs.Symbols.{signal_of};

use crate::symbol::Symbol;
use model::{Fault, Order, Refusal};
use table::Table;

// These are no methods: the table is another crate's type, and the facts are entered before there is a draft.

// The facts are the first names.
pub(crate) fn enter_facts(names: &mut Table<Symbol>, order: &Order) -> Result<(), Fault>
    requires none { keys_of names.old ≡ [] }
    ensures room { MatchResult result (λ _. length (facts_of order.now) ≤ capacity_of names.old) (λ f. (f ≡ fault TooFewNameCells 0) × (capacity_of names.old < length (facts_of order.now))) }
    ensures keys { OnOk result (keys_of names.new ≡ fact_symbols 0 (facts_of order.now)) }
    ensures capacity { capacity_of names.new ≡ capacity_of names.old }
{
    if names.capacity() < order.len() {
        return Err(Refusal::TooFewNameCells.at(0));
    }
    enter(names, order);
    Ok(())
}

// Each fact's name stands for the signal of its place.
fn enter(names: &mut Table<Symbol>, order: &Order)
    requires none { keys_of names.old ≡ [] }
    requires room { length (facts_of order.now) ≤ capacity_of names.old }
    ensures keys { keys_of names.new ≡ fact_symbols 0 (facts_of order.now) }
    ensures capacity { capacity_of names.new ≡ capacity_of names.old }
{
    for (place, fact) in order.facts().iter().enumerate() {
        let signal = place as u32;
        add(
            names,
            Symbol {
                name: fact.name,
                signal,
            },
        );
    }
}

// One name more, which is new and has room.
pub(crate) fn add(names: &mut Table<Symbol>, symbol: Symbol)
    requires fresh { signal_of (keys_of names.old) (spelling symbol.name) ≡ None }
    requires room { length (keys_of names.old) < capacity_of names.old }
    ensures keys { keys_of names.new ≡ keys_of names.old ++ (symbol ∷ []) }
    ensures capacity { capacity_of names.new ≡ capacity_of names.old }
{
    let _ = names.find_or_add(symbol);
}
