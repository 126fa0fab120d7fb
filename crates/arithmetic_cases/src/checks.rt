use super::nets::{checked, output};
use super::twisted::Twisted;
use arithmetic::{Amounts, YesNo};
use model::{Gate, GateKind, Refusal};

// A gate of a kind by number, with arguments that only a kind that ignores them can have.
fn odd_gate(kind: u8, number: u32) -> Gate {
    Gate {
        kind,
        number,
        first: 77,
        second: u32::MAX,
    }
}

#[test]
fn kinds(rt: HostRuntime) {
    assert_eq!(rt; checked::<YesNo>(0, &[], &[]), Ok(()), "an empty net");
    assert_eq!(rt;
        checked::<YesNo>(9, &[odd_gate(0, 0)], &[]),
        Err(Refusal::BadGate.at(0)),
        "kind 0"
    );
    assert_eq!(rt;
        checked::<YesNo>(9, &[odd_gate(7, 0)], &[]),
        Err(Refusal::BadGate.at(0)),
        "kind 7"
    );
    assert_eq!(rt;
        checked::<YesNo>(9, &[odd_gate(255, 0)], &[]),
        Err(Refusal::BadGate.at(0)),
        "kind 255"
    );
    assert_eq!(rt;
        checked::<YesNo>(9, &[odd_gate(1, 1)], &[]),
        Ok(()),
        "a constant ignores its arguments"
    );
    assert_eq!(rt;
        checked::<YesNo>(77, &[odd_gate(4, 5)], &[]),
        Err(Refusal::BadGate.at(0)),
        "minus uses the first"
    );
    assert_eq!(rt;
        checked::<YesNo>(78, &[odd_gate(4, 5)], &[]),
        Ok(()),
        "minus ignores the second and the number"
    );
    assert_eq!(rt;
        checked::<YesNo>(78, &[odd_gate(5, 5)], &[]),
        Ok(()),
        "and so does not"
    );
    assert_eq!(rt;
        checked::<YesNo>(78, &[odd_gate(2, 0)], &[]),
        Err(Refusal::BadGate.at(0)),
        "sum uses both"
    );
    assert_eq!(rt;
        checked::<YesNo>(78, &[odd_gate(3, 0)], &[]),
        Err(Refusal::BadGate.at(0)),
        "times uses both"
    );
    assert_eq!(rt;
        checked::<YesNo>(78, &[odd_gate(6, 0)], &[]),
        Err(Refusal::BadGate.at(0)),
        "or uses both"
    );
}

#[test]
fn arguments(rt: HostRuntime) {
    let first = Gate::unary(GateKind::Not, 1);
    assert_eq!(rt; checked::<YesNo>(2, &[first], &[]), Ok(()), "the last fact");
    assert_eq!(rt;
        checked::<YesNo>(1, &[first], &[]),
        Err(Refusal::BadGate.at(0)),
        "its own signal"
    );
    assert_eq!(rt;
        checked::<YesNo>(0, &[first], &[]),
        Err(Refusal::BadGate.at(0)),
        "a later signal"
    );
    let second = Gate::binary(GateKind::Or, 2, 0);
    assert_eq!(rt;
        checked::<YesNo>(2, &[first, second], &[]),
        Ok(()),
        "the gate before"
    );
    let third = Gate::binary(GateKind::Or, 0, 3);
    assert_eq!(rt;
        checked::<YesNo>(2, &[first, third], &[]),
        Err(Refusal::BadGate.at(1)),
        "its own signal, second"
    );
    assert_eq!(rt;
        checked::<YesNo>(usize::MAX, &[odd_gate(2, 0)], &[]),
        Ok(()),
        "every signal"
    );
}

#[test]
fn constants(rt: HostRuntime) {
    let two = [Gate::constant(1), Gate::constant(2)];
    assert_eq!(rt;
        checked::<YesNo>(0, &two, &[]),
        Err(Refusal::BadConstant.at(1)),
        "2 in yes/no"
    );
    assert_eq!(rt; checked::<Amounts>(0, &two, &[]), Ok(()), "2 in amounts");
    assert_eq!(rt;
        checked::<Twisted>(0, &two, &[]),
        Err(Refusal::BadConstant.at(0)),
        "1 is no value here"
    );
    assert_eq!(rt; checked::<Twisted>(0, &[Gate::constant(15)], &[]), Ok(()));
    assert_eq!(rt;
        checked::<Amounts>(0, &[Gate::constant(u32::MAX)], &[]),
        Ok(())
    );
}

#[test]
fn first_place(rt: HostRuntime) {
    let good = Gate::constant(1);
    let late = [good, Gate::constant(3), odd_gate(9, 0)];
    assert_eq!(rt;
        checked::<YesNo>(1, &late, &[output(9)]),
        Err(Refusal::BadConstant.at(1)),
        "a constant before a kind"
    );
    let early = [good, odd_gate(9, 0), Gate::constant(3)];
    assert_eq!(rt;
        checked::<YesNo>(1, &early, &[output(9)]),
        Err(Refusal::BadGate.at(1)),
        "a kind before a constant"
    );
    assert_eq!(rt;
        checked::<YesNo>(1, &[good], &[output(0), output(1)]),
        Ok(()),
        "a fact and the last gate"
    );
    assert_eq!(rt;
        checked::<YesNo>(1, &[good], &[output(0), output(2), output(3)]),
        Err(Refusal::BadOutput.at(1)),
        "the first output that is no signal"
    );
    assert_eq!(rt;
        checked::<YesNo>(0, &[], &[output(0)]),
        Err(Refusal::BadOutput.at(0)),
        "no signals"
    );
}
