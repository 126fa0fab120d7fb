ghost use Rattle.std.specs.Prelude.{◌≡◌, true, [], is_err, Ok, MatchResult};
ghost use Rattle.model.specs.Orders.{facts_of};
ghost use Rattle.model.specs.Refusals.{fault};
ghost use Rattle.model.specs.declared.fact.Fact.{Fact as FactOf};
ghost use Rattle.model.specs.declared.fault.Refusal.TheVariants.{NoForm};
ghost use Rattle.model.specs.declared.order.Order.{Order as OrderOf};
ghost use Rattle.sheets.specs.Cursors.{ahead, current};
ghost use Rattle.sheets.specs.OrderLaws.{order_text, OrderLaws};
ghost use Rattle.sheets.specs.OrderSheets.{FactLine, FactStep, OrderSheet, StepRefused};
ghost use Rattle.sheets.specs.Sheets.{verdict};

use crate::cursor::Cursor;
use crate::lines::Lines;
use crate::token::LineEnd;
use model::{Fact, Fault, Order};

/// Reads the text of an order sheet into an order, which is left empty on refusal.
pub fn read_order(text: &[u8], order: &mut Order) -> Result<(), Fault>
    ensures verdict { OrderSheet text.now (verdict result (facts_of order.new)) }
    ensures refused { is_err result ≡ true → facts_of order.new ≡ [] }
    ensures written { (o : OrderOf) → text.now ≡ order_text (facts_of o) → (result ≡ Ok tt) × (facts_of order.new ≡ facts_of o) }
    ensures laws { OrderLaws }
{
    order.clear();
    let outcome = read_facts(text, order);
    if outcome.is_err() {
        order.clear();
    }
    outcome
}

fn read_facts(text: &[u8], order: &mut Order) -> Result<(), Fault>
    requires { facts_of order.old ≡ [] }
    ensures { OrderSheet text.now (verdict result (facts_of order.new)) }
{
    for line in Lines::open(text, b"ORD")? {
        read_fact(line, order)?;
    }
    Ok(())
}

// Adds the fact of a line.
fn read_fact(mut line: Cursor, order: &mut Order) -> Result<(), Fault>
    ensures { MatchResult result (λ _. FactStep (facts_of order.old) (ahead line.entry) (Ok (facts_of order.new))) (λ f. StepRefused (facts_of order.old) (current line.entry) f) }
{
    line.check_brackets()?;
    let fact = fact_line(&mut line)?;
    line.placed(order.add(fact))
}

// The fact that a line of the form `S`, `P` or `N` and a name says.
fn fact_line(cursor: &mut Cursor) -> Result<Fact, Fault>
    ensures stays { cursor.new.line ≡ cursor.old.line }
    ensures form { MatchResult result (λ f. FactLine (ahead cursor.old) f) (λ e. (e ≡ fault NoForm cursor.old.line) × ((f : FactOf) → FactLine (ahead cursor.old) f → ⊥)) }
{
    let decomposition = cursor.take()?;
    let name = cursor.take()?;
    cursor.take::<LineEnd>()?;
    Ok(Fact {
        decomposition,
        name,
    })
}
