ghost use Rattle.std.specs.Prelude.{◌≡◌, ◌+◌, ◌<◌, List, length, take, Some};
ghost use Rattle.model.specs.Assignments.{holds};
ghost use Rattle.model.specs.Nets.{gate_value, gate_values, operation, output_value, signal_value};
ghost use Rattle.arithmetic.specs.Evaluation.{value_of_signal};

use crate::ring::Arithmetic;
use model::{Gate, GateKind, Output};

/// What the signals of a net are worth: the facts under an assignment, and gates that have these values.
#[derive(Clone, Copy, Debug, PartialEq, Eq)]
pub struct Signals<'a> {
    pub facts: usize,
    pub assignment: u64,
    pub values: &'a [u32],
}

impl Signals<'_> {
    /// The value of an output, where `Net::evaluate` has filled the list of values.
    pub fn output_value<A: Arithmetic>(&self, output: &Output) -> Option<u32>
        ensures answer { result ≡ value_of_signal A.Arithmetic.ring self.now.facts (holds self.now.assignment) self.now.values.now output.now.signal }
        ensures meaning { (gates : List Gate) → take (length gates) self.now.values.now ≡ gate_values A.Arithmetic.ring self.now.facts (holds self.now.assignment) gates → output.now.signal < self.now.facts + length gates → result ≡ Some (output_value A.Arithmetic.ring self.now.facts (holds self.now.assignment) gates output.now) }
    {
        self.value::<A>(output.signal)
    }

    // The value of a gate, where these are the values of the gates before it.
    #[tactic(auto, using(crate::proofs::GateKinds::kind_told))]
    pub(crate) fn gate_value<A: Arithmetic>(&self, gate: &Gate) -> u32
        ensures { result ≡ gate_value A.Arithmetic.ring self.now.facts (holds self.now.assignment) self.now.values.now gate.now }
    {
        let first = self.argument::<A>(gate.first);
        let second = self.argument::<A>(gate.second);
        operation::<A>(
            GateKind::try_from(gate.kind).ok(),
            gate.number,
            first,
            second,
        )
    }

    // The value of an argument; what a gate does not use may be no signal.
    fn argument<A: Arithmetic>(&self, signal: u32) -> u32
        ensures { result ≡ signal_value A.Arithmetic.ring self.now.facts (holds self.now.assignment) self.now.values.now signal }
    {
        self.value::<A>(signal).unwrap_or(0)
    }

    // The value of a signal, if there is such a signal.
    fn value<A: Arithmetic>(&self, signal: u32) -> Option<u32>
        ensures { result ≡ value_of_signal A.Arithmetic.ring self.now.facts (holds self.now.assignment) self.now.values.now signal }
    {
        let signal = signal as usize;
        if signal < self.facts {
            return Some(if fact_holds(self.assignment, signal) {
                A::ONE
            } else {
                A::ZERO
            });
        }
        self.values.get(signal - self.facts).copied()
    }
}

// Whether a fact holds under an assignment. Facts past the 64th never do.
fn fact_holds(assignment: u64, fact: usize) -> bool
    ensures { result ≡ holds assignment fact }
{
    fact < 64 && (assignment >> fact) % 2 == 1
}

// What a gate gives, from a constant's number and the values of its arguments.
fn operation<A: Arithmetic>(kind: Option<GateKind>, number: u32, a: u32, b: u32) -> u32
    ensures { result ≡ operation A.Arithmetic.ring kind number a b }
{
    match kind {
        None => A::ZERO,
        Some(GateKind::Const) => number,
        Some(GateKind::Sum) => A::sum(a, b),
        Some(GateKind::Times) => A::product(a, b),
        Some(GateKind::Minus) => A::minus(a),
        Some(GateKind::Not) => A::sum(A::ONE, A::minus(a)),
        Some(GateKind::Or) => {
            let both = A::product(a, b);
            A::sum(A::sum(a, b), A::minus(both))
        }
    }
}
