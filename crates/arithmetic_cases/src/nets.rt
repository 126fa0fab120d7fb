use arithmetic::{Arithmetic, Net};
use model::{Fault, Gate, Name, Output};

// An output of a signal.
pub(super) fn output(signal: u32) -> Output {
    Output {
        name: Name::empty(),
        signal,
    }
}

// What the checks of a net answer.
pub(super) fn checked<A: Arithmetic>(
    facts: usize,
    gates: &[Gate],
    outputs: &[Output],
) -> Result<(), Fault> {
    let net = Net {
        facts,
        gates,
        outputs,
    };
    net.check::<A>()
}

// What working a net out answers.
pub(super) fn evaluated<A: Arithmetic>(
    facts: usize,
    gates: &[Gate],
    outputs: &[Output],
    assignment: u64,
    values: &mut [u32],
) -> Result<(), Fault> {
    let net = Net {
        facts,
        gates,
        outputs,
    };
    net.evaluate::<A>(assignment, values)
}
