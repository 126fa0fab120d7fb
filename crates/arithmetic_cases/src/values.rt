use super::nets::{evaluated, output};
use super::twisted::Twisted;
use arithmetic::{Amounts, Arithmetic, Signals, YesNo};
use model::{Gate, GateKind, Refusal};
use std::test::Fail;

// Every kind, over two facts and the gates before.
fn every_kind(constant: u32) -> [Gate; 6] {
    [
        Gate::constant(constant),
        Gate::binary(GateKind::Sum, 0, 2),
        Gate::binary(GateKind::Times, 1, 3),
        Gate::unary(GateKind::Minus, 4),
        Gate::unary(GateKind::Not, 5),
        Gate::binary(GateKind::Or, 3, 0),
    ]
}

// The values of every kind, with one entry more in the list.
fn worked_out<A: Arithmetic>(constant: u32, assignment: u64) -> [u32; 7] {
    let mut values = [99; 7];
    let _ = evaluated::<A>(
        2,
        &every_kind(constant),
        &[output(7)],
        assignment,
        &mut values,
    );
    values
}

#[test]
fn kinds(rt: HostRuntime) {
    assert_eq!(rt;
        worked_out::<YesNo>(1, 2),
        [1, 1, 1, 1, 0, 1, 99],
        "yes/no, the second holds"
    );
    assert_eq!(rt;
        worked_out::<YesNo>(1, 3),
        [1, 0, 0, 0, 1, 1, 99],
        "yes/no, both hold"
    );
    assert_eq!(rt;
        worked_out::<Amounts>(5, 3),
        [5, 6, 6, u32::MAX - 5, 7, 1, 99],
        "amounts"
    );
    assert_eq!(rt;
        worked_out::<Amounts>(5, 0),
        [5, 5, 0, 0, 1, 5, 99],
        "amounts, none holds"
    );
    assert_eq!(rt;
        worked_out::<Twisted>(10, 3),
        [10, 11, 11, 11, 10, 9, 99],
        "twisted"
    );
}

#[test]
fn most_gates(rt: HostRuntime) -> Result<(), Fail> {
    let mut gates = vec![in rt.alloc(); Gate::constant(1); 65536]?;
    let mut values = vec![in rt.alloc(); 7u32; 65537]?;
    assert_eq!(rt;
        evaluated::<YesNo>(0, &gates, &[], 0, &mut values),
        Ok(()),
        "65,536 gates"
    );
    assert_eq!(rt; values.get(65535).copied(), Some(1));
    assert_eq!(rt; values.get(65536).copied(), Some(7), "later entries stay");
    gates.push(Gate::constant(0))?;
    assert_eq!(rt;
        evaluated::<YesNo>(0, &gates, &[], 0, &mut values),
        Err(Refusal::NetTooLarge.at(0)),
        "65,537 gates"
    );
    assert_eq!(rt;
        values.get(65536).copied(),
        Some(7),
        "a refusal writes nothing"
    );
    Ok(())
}

#[test]
fn refusals(rt: HostRuntime) {
    let mut values = [7, 7];
    let gates = [Gate::constant(0), Gate::constant(1), Gate::constant(2)];
    assert_eq!(rt;
        evaluated::<YesNo>(2, &gates, &[], 4, &mut values),
        Err(Refusal::NetTooLarge.at(0)),
        "a short list comes first"
    );
    assert_eq!(rt;
        evaluated::<YesNo>(2, &gates[1..3], &[], 4, &mut values),
        Err(Refusal::BadConstant.at(1)),
        "the net comes before the assignment"
    );
    assert_eq!(rt;
        evaluated::<YesNo>(2, &gates[0..2], &[output(4)], 4, &mut values),
        Err(Refusal::BadOutput.at(0))
    );
    assert_eq!(rt;
        evaluated::<YesNo>(2, &gates[0..2], &[output(3)], 4, &mut values),
        Err(Refusal::BadAssignment.at(0)),
        "a bit beyond the facts"
    );
    assert_eq!(rt; values, [7, 7], "a refusal writes nothing");
    assert_eq!(rt;
        evaluated::<YesNo>(2, &gates[0..2], &[output(3)], 3, &mut values),
        Ok(())
    );
    assert_eq!(rt; values, [0, 1]);
}

#[test]
fn assignments(rt: HostRuntime) {
    assert_eq!(rt;
        evaluated::<YesNo>(0, &[], &[], 0, &mut []),
        Ok(()),
        "no facts"
    );
    assert_eq!(rt;
        evaluated::<YesNo>(0, &[], &[], 1, &mut []),
        Err(Refusal::BadAssignment.at(0)),
        "a bit and no facts"
    );
    assert_eq!(rt;
        evaluated::<YesNo>(63, &[], &[], 1 << 63, &mut []),
        Err(Refusal::BadAssignment.at(0)),
        "the 64th bit"
    );
    assert_eq!(rt;
        evaluated::<YesNo>(64, &[], &[], u64::MAX, &mut []),
        Ok(()),
        "64 facts"
    );
    assert_eq!(rt;
        evaluated::<YesNo>(usize::MAX, &[], &[], 1, &mut []),
        Ok(()),
        "many facts"
    );
}

#[test]
fn outputs(rt: HostRuntime) {
    let signals = Signals {
        facts: 2,
        assignment: 2,
        values: &[1, 5],
    };
    assert_eq!(rt;
        signals.output_value::<YesNo>(&output(0)),
        Some(0),
        "a fact that fails"
    );
    assert_eq!(rt;
        signals.output_value::<YesNo>(&output(1)),
        Some(1),
        "one that holds"
    );
    assert_eq!(rt;
        signals.output_value::<Twisted>(&output(1)),
        Some(9),
        "one is 9 here"
    );
    assert_eq!(rt;
        signals.output_value::<YesNo>(&output(3)),
        Some(5),
        "a gate"
    );
    assert_eq!(rt;
        signals.output_value::<YesNo>(&output(4)),
        None,
        "no signal"
    );
    let many = Signals {
        facts: 70,
        assignment: 0,
        values: &[],
    };
    assert_eq!(rt; many.output_value::<YesNo>(&output(69)), Some(0), "fact 69");
}
