ghost use Rattle.std.specs.Prelude.{◌≡◌, ◌+◌, ◌≤◌, ◌++◌, length, drop, nat_lt, MatchResult};
ghost use Rattle.model.specs.Assignments.{holds, Assigns};
ghost use Rattle.model.specs.Nets.{gate_values};
ghost use Rattle.model.specs.Refusals.{fault};
ghost use Rattle.model.specs.declared.fault.Refusal.TheVariants.{BadAssignment};
ghost use Rattle.arithmetic.specs.DerivedLaws.{DerivedLaws};
ghost use Rattle.arithmetic.specs.Evaluation.{Evaluates};
ghost use Rattle.arithmetic.specs.NetChecks.{gate_at, gate_verdict, output_at, Checked, NetVerdict, OneNetVerdict, Pass};
ghost use Rattle.arithmetic.specs.NetLaws.{NetLaws};

use crate::ring::Arithmetic;
use crate::signals::Signals;
use model::{Fault, Gate, GateKind, Output, Refusal};

// The most gates that a net may have.
const MAX_GATES: usize = 65536;

/// A net over so many facts. Its gates and outputs may hold anything; `check` looks at them.
#[derive(Clone, Copy, Debug, PartialEq, Eq)]
pub struct Net<'a> {
    pub facts: usize,
    pub gates: &'a [Gate],
    pub outputs: &'a [Output],
}

impl Net<'_> {
    /// The checks of a net: the gates in turn, then the outputs.
    pub fn check<A: Arithmetic>(&self) -> Result<(), Fault>
        ensures verdict { NetVerdict A.Arithmetic.ring self.now.facts self.now.gates.now self.now.outputs.now result }
        ensures unique { OneNetVerdict A.Arithmetic.ring }
    {
        self.check_gates::<A>()?;
        self.check_outputs()
    }

    /// Works a net out under an assignment: the value of each gate, from place 0 of the list.
    pub fn evaluate<A: Arithmetic>(&self, assignment: u64, values: &mut [u32]) -> Result<(), Fault>
        ensures values { Evaluates A.Arithmetic.ring self.now.facts self.now.gates.now self.now.outputs.now assignment values.old result values.new }
        ensures laws { NetLaws A.Arithmetic.ring }
        ensures derived { DerivedLaws A.Arithmetic.ring }
    {
        let gates = self.gates.len();
        if gates > MAX_GATES || gates > values.len() {
            return Err(Refusal::NetTooLarge.at(0));
        }
        self.check::<A>()?;
        self.check_assignment(assignment)?;
        self.write_values::<A>(assignment, values);
        Ok(())
    }

    // The first gate that is refused.
    fn check_gates<A: Arithmetic>(&self) -> Result<(), Fault>
        ensures { Checked (gate_at A.Arithmetic.ring self.now.facts self.now.gates.now) (length self.now.gates.now) result }
    {
        for (place, gate) in self.gates.iter().enumerate() {
            self.check_gate::<A>(place, gate)
                .map_err(|refusal| refusal.at(place))?;
        }
        Ok(())
    }

    // The first output that is refused.
    fn check_outputs(&self) -> Result<(), Fault>
        ensures { Checked (output_at (self.now.facts + length self.now.gates.now) self.now.outputs.now) (length self.now.outputs.now) result }
    {
        for (place, output) in self.outputs.iter().enumerate() {
            if !self.is_signal(self.gates.len(), output.signal) {
                return Err(Refusal::BadOutput.at(place));
            }
        }
        Ok(())
    }

    // Arguments are facts or earlier gates.
    #[tactic(auto, using(crate::proofs::GateKinds::kind_told))]
    fn check_gate<A: Arithmetic>(&self, place: usize, gate: &Gate) -> Result<(), Refusal>
        ensures { result ≡ gate_verdict A.Arithmetic.ring (self.now.facts + place) gate.now }
    {
        let kind = GateKind::try_from(gate.kind).map_err(|_| Refusal::BadGate)?;
        let first = self.is_signal(place, gate.first);
        let second = self.is_signal(place, gate.second);
        let earlier = match kind {
            GateKind::Const => true,
            GateKind::Minus | GateKind::Not => first,
            GateKind::Sum | GateKind::Times | GateKind::Or => first && second,
        };
        if !earlier {
            return Err(Refusal::BadGate);
        }
        if matches!(kind, GateKind::Const) && !A::is_value(gate.number) {
            return Err(Refusal::BadConstant);
        }
        Ok(())
    }

    // Whether a number is one of the facts or of the first gates.
    fn is_signal(&self, gates: usize, number: u32) -> bool
        ensures { result ≡ nat_lt number (self.now.facts + gates) }
    {
        // The sum of the two counts might not fit.
        let number = number as usize;
        number < self.facts || number - self.facts < gates
    }

    // An assignment has no bit beyond the facts.
    fn check_assignment(&self, assignment: u64) -> Result<(), Fault>
        ensures { MatchResult result (λ _. Assigns self.now.facts assignment) (λ f. (f ≡ fault BadAssignment 0) × (Assigns self.now.facts assignment → ⊥)) }
    {
        if self.facts < 64 && assignment >> self.facts != 0 {
            return Err(Refusal::BadAssignment.at(0));
        }
        Ok(())
    }

    // The gates' values in turn, where there is room for them. A gate reads the values before it,
    // so they are written by place.
    fn write_values<A: Arithmetic>(&self, assignment: u64, values: &mut [u32])
        requires checked { Pass (gate_at A.Arithmetic.ring self.now.facts self.now.gates.now) (length self.now.gates.now) }
        requires room { length self.now.gates.now ≤ length values.old }
        ensures { values.new ≡ gate_values A.Arithmetic.ring self.now.facts (holds assignment) self.now.gates.now ++ drop (length self.now.gates.now) values.old }
    {
        for (place, gate) in self.gates.iter().enumerate() {
            let signals = Signals {
                facts: self.facts,
                assignment,
                values,
            };
            values[place] = signals.gate_value::<A>(gate);
        }
    }
}
