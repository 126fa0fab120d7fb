use arithmetic::{Amounts, Net, Signals};
use model::{Gate, GateKind, Order, Output};
use sheets::{Notation, read_order, read_rules};
use table::Cell;

// What the output of a formula sheet is worth in amounts, over the facts `a`, `b` and `c`, of which only `a` and `c`
// hold. None if the sheet or its net is refused.
fn amount(text: &[u8]) -> Option<u32> {
    let mut order = Order::new();
    let _ = read_order(b"ORD 1\nS a\nP b\nN c\n", &mut order);
    let mut names = [Cell::empty(); 20];
    let mut gates = [Gate::empty(); 40];
    let mut outputs = [Output::empty(); 1];
    let counts = read_rules(
        Notation::Formulas,
        text,
        &order,
        &mut names,
        &mut gates,
        &mut outputs,
    )
    .ok()?;
    let (gates, _) = gates.split_at_checked(counts.gates)?;
    let net = Net {
        facts: 3,
        gates,
        outputs: &outputs,
    };
    let mut values = [0; 40];
    net.evaluate::<Amounts>(5, &mut values).ok()?;
    let signals = Signals {
        facts: 3,
        assignment: 5,
        values: &values,
    };
    signals.output_value::<Amounts>(&outputs[0])
}

#[test]
fn grouping(rt: HostRuntime) {
    assert_eq!(rt;
        amount(b"FRM 1\nx = 7 - 2 - 1\nout x\n"),
        Some(4),
        "from the left"
    );
    assert_eq!(rt;
        amount(b"FRM 1\nx = 7 - (2 - 1)\nout x\n"),
        Some(6),
        "brackets first"
    );
    assert_eq!(rt;
        amount(b"FRM 1\nx = 7 - 2 + 1\nout x\n"),
        Some(6),
        "minus and plus alike"
    );
    assert_eq!(rt;
        amount(b"FRM 1\nx = 7 - (2 + 1)\nout x\n"),
        Some(4),
        "brackets first"
    );
    assert_eq!(rt;
        amount(b"FRM 1\nx = 2 * 3 * 4\nout x\n"),
        Some(24),
        "products"
    );
    assert_eq!(rt;
        amount(b"FRM 1\nx = 1 - 2\nout x\n"),
        Some(4294967295),
        "below zero"
    );
}

#[test]
fn precedence(rt: HostRuntime) {
    assert_eq!(rt;
        amount(b"FRM 1\nx = 2 + 3 * 4\nout x\n"),
        Some(14),
        "times before plus"
    );
    assert_eq!(rt;
        amount(b"FRM 1\nx = (2 + 3) * 4\nout x\n"),
        Some(20),
        "brackets first"
    );
    // 2 | 23 is 2 + 23 - 46
    assert_eq!(rt;
        amount(b"FRM 1\nx = 2 | 3 + 4 * 5\nout x\n"),
        Some(4294967275),
        "or comes last"
    );
    // (2 | 3) is 2 + 3 - 6
    assert_eq!(rt;
        amount(b"FRM 1\nx = (2 | 3) + 4 * 5\nout x\n"),
        Some(19),
        "unless in brackets"
    );
    // not 2 is 1 - 2
    assert_eq!(rt;
        amount(b"FRM 1\nx = !2 * 3\nout x\n"),
        Some(4294967293),
        "not comes first"
    );
    assert_eq!(rt;
        amount(b"FRM 1\nx = !(2 * 3)\nout x\n"),
        Some(4294967291),
        "unless in brackets"
    );
    assert_eq!(rt;
        amount(b"FRM 1\nx = !(2 | 3)\nout x\n"),
        Some(2),
        "not of or"
    );
    assert_eq!(rt; amount(b"FRM 1\nx = !!5\nout x\n"), Some(5), "not of not");
    assert_eq!(rt;
        amount(
            b"FRM 1\nx = ((((((((((((((((((((((((((((((((5))))))))))))))))))))))))))))))))\nout x\n",
        ),
        Some(5),
        "32 brackets"
    );
}

#[test]
fn facts(rt: HostRuntime) {
    assert_eq!(rt;
        amount(b"FRM 1\nx = a * 5 + b * 7 - c * 2\nout x\n"),
        Some(3),
        "facts are 1 or 0"
    );
    assert_eq!(rt;
        amount(b"FRM 1\nx = a + c\ny = x * x - b\nout y\n"),
        Some(4),
        "names above"
    );
    assert_eq!(rt; amount(b"FRM 1\nout c\n"), Some(1), "a fact");
    assert_eq!(rt;
        amount(b"FRM 1\nx = b\nout x\n"),
        Some(0),
        "another name for a fact"
    );
}

// Operands first, left before right; a difference is a minus and then a sum.
#[test]
fn gates(rt: HostRuntime) {
    let mut order = Order::new();
    let _ = read_order(b"ORD 1\nS a\nP b\nN c\n", &mut order);
    let mut names = [Cell::empty(); 5];
    let mut gates = [Gate::empty(); 8];
    let mut outputs = [Output::empty(); 2];
    let read = read_rules(
        Notation::Formulas,
        b"FRM 1\nx = a * 2 - !(b | c)\nout x\nout b\n",
        &order,
        &mut names,
        &mut gates,
        &mut outputs,
    );
    assert!(rt; read.is_ok());
    let expected = [
        Gate::constant(2),
        Gate::binary(GateKind::Times, 0, 3),
        Gate::binary(GateKind::Or, 1, 2),
        Gate::unary(GateKind::Not, 5),
        Gate::unary(GateKind::Minus, 6),
        Gate::binary(GateKind::Sum, 4, 7),
        Gate::empty(),
        Gate::empty(),
    ];
    assert_eq!(rt; gates, expected);
    assert_eq!(rt; (outputs[0].signal, outputs[1].signal), (8, 1));
}
