ghost use Rattle.std.specs.Prelude.{◌≡◌, []};
ghost use Rattle.model.specs.Orders.{facts_of, Adds};

use super::{MAX_FACTS, Order};
use crate::decomposition::Decomposition;
use crate::fact::Fact;
use crate::fault::Refusal;
use crate::name::Name;

impl Order {
    /// An order of no facts.
    pub fn new() -> Order
        ensures { facts_of result ≡ [] }
    {
        let unused = Fact {
            decomposition: Decomposition::Shannon,
            name: Name::empty(),
        };
        Order {
            facts: [unused; MAX_FACTS],
            len: 0,
        }
    }

    /// One fact more, below the others.
    pub fn add(&mut self, fact: Fact) -> Result<(), Refusal>
        ensures { Adds (facts_of self.old) fact result (facts_of self.new) }
    {
        if fact.name.is_empty() {
            return Err(Refusal::NoForm);
        }
        if self.find(&fact.name).is_some() {
            return Err(Refusal::NamedTwice);
        }
        if self.len == MAX_FACTS {
            return Err(Refusal::TooManyFacts);
        }
        self.facts[self.len] = fact;
        self.len += 1;
        Ok(())
    }

    /// No fact is left.
    pub fn clear(&mut self)
        ensures { facts_of self.new ≡ [] }
    {
        self.len = 0;
    }
}
