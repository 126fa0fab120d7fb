use crate::cases::{Sheets, made, on};
use model::{Gate, GateKind, Order, Output, Refusal};
use sheets::{Notation, read_order, read_rules};
use table::Cell;

// Gate sheets over the facts `a`, `b` and `out`.
const SHEETS: Sheets = Sheets {
    notation: Notation::Gates,
    order: b"ORD 1\nS a\nP b\nN out\n",
};

#[test]
fn first_lines(rt: HostRuntime) {
    SHEETS.answers(
        &rt,
        &[
            on(b"", Err(Refusal::BadHeading.at(0)), "an empty text"),
            on(b"GAT 1", made(0, 0), "no line"),
            on(
                b"GAT 2\n",
                Err(Refusal::WrongVersion.at(0)),
                "another version",
            ),
            on(b"ORD 1\n", Err(Refusal::BadHeading.at(0)), "an order sheet"),
            on(
                b"FRM 1\n",
                Err(Refusal::BadHeading.at(0)),
                "a formula sheet",
            ),
            on(
                b"GAT 1\n#\x7f",
                Err(Refusal::BadByte.at(7)),
                "a byte that is not allowed",
            ),
        ],
    );
}

#[test]
fn cells(rt: HostRuntime) {
    assert_eq!(rt;
        SHEETS.read::<2, 0, 0>(b"GAT 1\n"),
        Err(Refusal::TooFewNameCells.at(0)),
        "one name cell too few for the facts"
    );
    assert_eq!(rt;
        SHEETS.read::<0, 0, 0>(b"GAT 1\n"),
        Err(Refusal::TooFewNameCells.at(0)),
        "no name cells"
    );
    assert_eq!(rt;
        SHEETS.read::<0, 0, 0>(b"GAT 2\n"),
        Err(Refusal::WrongVersion.at(0)),
        "the version comes first"
    );
    assert_eq!(rt;
        SHEETS.read::<3, 0, 0>(b"GAT 1\n"),
        made(0, 0),
        "as many name cells as facts"
    );
}

#[test]
fn definitions(rt: HostRuntime) {
    SHEETS.answers(
        &rt,
        &[
            on(b"GAT 1\nc = sum a b\n", made(1, 0), "a sum"),
            on(b"GAT 1\nc=times a b", made(1, 0), "no spaces, no newline"),
            on(
                b"GAT 1\n c = or a a # \n",
                Err(Refusal::NoForm.at(6)),
                "a comment cannot follow",
            ),
            on(
                b"GAT 1\nc = const 4294967295\n",
                made(1, 0),
                "the largest number",
            ),
            on(
                b"GAT 1\nc = const 4294967296\n",
                Err(Refusal::NoForm.at(6)),
                "one more",
            ),
            on(
                b"GAT 1\nc = const 00\n",
                Err(Refusal::NoForm.at(6)),
                "a needless zero",
            ),
            on(
                b"GAT 1\nc = const a\n",
                Err(Refusal::NoForm.at(6)),
                "no number",
            ),
            on(
                b"GAT 1\nc = not a\nd = minus c\n",
                made(2, 0),
                "one argument each",
            ),
            on(
                b"GAT 1\nsum = sum a b\nconst = not sum\n",
                made(2, 0),
                "gate words as names",
            ),
            on(
                b"GAT 1\nc = not out\n",
                made(1, 0),
                "a fact that is called out",
            ),
        ],
    );
}

#[test]
fn forms(rt: HostRuntime) {
    SHEETS.answers(
        &rt,
        &[
            on(
                b"GAT 1\nc = sum a\n",
                Err(Refusal::NoForm.at(6)),
                "an argument too few",
            ),
            on(
                b"GAT 1\nc = sum a b a\n",
                Err(Refusal::NoForm.at(6)),
                "an argument too many",
            ),
            on(
                b"GAT 1\nc = not\n",
                Err(Refusal::NoForm.at(6)),
                "no argument",
            ),
            on(
                b"GAT 1\nc = not 1\n",
                Err(Refusal::NoForm.at(6)),
                "a number for a name",
            ),
            on(
                b"GAT 1\nc = nand a b\n",
                Err(Refusal::NoForm.at(6)),
                "an unknown gate word",
            ),
            on(
                b"GAT 1\nc =\n",
                Err(Refusal::NoForm.at(6)),
                "no right-hand side",
            ),
            on(b"GAT 1\nc sum a b\n", Err(Refusal::NoForm.at(6)), "no sign"),
            on(b"GAT 1\n= sum a b\n", Err(Refusal::NoForm.at(6)), "no name"),
            on(
                b"GAT 1\n1 = sum a b\n",
                Err(Refusal::NoForm.at(6)),
                "a number for the name",
            ),
            on(
                b"GAT 1\nout = not a\n",
                Err(Refusal::NoForm.at(6)),
                "an output line",
            ),
            on(
                b"GAT 1\nout\n",
                Err(Refusal::NoForm.at(6)),
                "an output without a name",
            ),
            on(
                b"GAT 1\nout a b\n",
                Err(Refusal::NoForm.at(6)),
                "an output with two names",
            ),
            on(
                b"GAT 1\nabcdefghijklmnopq = not a\n",
                Err(Refusal::NoForm.at(6)),
                "a name of 17 letters",
            ),
            on(
                b"GAT 1\nabcdefghijklmnop = not a\n",
                made(1, 0),
                "a name of 16 letters",
            ),
        ],
    );
}

#[test]
fn names(rt: HostRuntime) {
    SHEETS.answers(
        &rt,
        &[
            on(
                b"GAT 1\nc = not d\n",
                Err(Refusal::UnknownName.at(6)),
                "an unknown argument",
            ),
            on(
                b"GAT 1\nc = not c\n",
                Err(Refusal::UnknownName.at(6)),
                "its own name",
            ),
            on(
                b"GAT 1\nc = sum a d\n",
                Err(Refusal::UnknownName.at(6)),
                "an unknown second argument",
            ),
            on(
                b"GAT 1\nout c\n",
                Err(Refusal::UnknownName.at(6)),
                "an unknown output",
            ),
            on(
                b"GAT 1\na = not b\n",
                Err(Refusal::NamedTwice.at(6)),
                "a fact's name",
            ),
            on(
                b"GAT 1\nc = not a\nc = not a\n",
                Err(Refusal::NamedTwice.at(16)),
                "defined twice",
            ),
            on(
                b"GAT 1\nout a\nout a\n",
                Err(Refusal::NamedTwice.at(12)),
                "listed twice",
            ),
            on(
                b"GAT 1\nout out\nout a\nc = not a\nout c\n",
                made(1, 3),
                "facts and gates as outputs",
            ),
            on(
                b"GAT 1\na = not d\n",
                Err(Refusal::UnknownName.at(6)),
                "unknown before repeated",
            ),
            on(
                b"GAT 1\na = not d e\n",
                Err(Refusal::NoForm.at(6)),
                "form before unknown",
            ),
        ],
    );
}

#[test]
fn room(rt: HostRuntime) {
    assert_eq!(rt;
        SHEETS.read::<5, 2, 1>(b"GAT 1\nc = not a\nd = not c\nout d\n"),
        made(2, 1),
        "exact"
    );
    assert_eq!(rt;
        SHEETS.read::<4, 2, 1>(b"GAT 1\nc = not a\nd = not c\nout d\n"),
        Err(Refusal::SheetTooLarge.at(16)),
        "a name cell less"
    );
    assert_eq!(rt;
        SHEETS.read::<5, 1, 1>(b"GAT 1\nc = not a\nd = not c\nout d\n"),
        Err(Refusal::SheetTooLarge.at(16)),
        "a gate less"
    );
    assert_eq!(rt;
        SHEETS.read::<5, 2, 0>(b"GAT 1\nc = not a\nd = not c\nout d\n"),
        Err(Refusal::SheetTooLarge.at(26)),
        "an output less"
    );
    assert_eq!(rt;
        SHEETS.read::<4, 0, 1>(b"GAT 1\nc = not a\n"),
        Err(Refusal::SheetTooLarge.at(6)),
        "no gates"
    );
    assert_eq!(rt;
        SHEETS.read::<3, 0, 1>(b"GAT 1\na = not a\n"),
        Err(Refusal::NamedTwice.at(6)),
        "repeated before room"
    );
    assert_eq!(rt;
        SHEETS.read::<3, 0, 0>(b"GAT 1\nout a\nout c\n"),
        Err(Refusal::SheetTooLarge.at(6)),
        "a later line is not looked at"
    );
}

#[test]
fn brackets(rt: HostRuntime) {
    SHEETS.answers(
        &rt,
        &[
            on(
                b"GAT 1\n((((((((((((((((!!!!!!!!!!!!!!!!\n",
                Err(Refusal::NoForm.at(6)),
                "32, of no form",
            ),
            on(
                b"GAT 1\n((((((((((((((((!!!!!!!!!!!!!!!!(\n",
                Err(Refusal::TooManyBrackets.at(6)),
                "33",
            ),
        ],
    );
}

// What is left after a refusal, and past what was read.
#[test]
fn left(rt: HostRuntime) {
    let mut order = Order::new();
    let _ = read_order(b"ORD 1\nS a\n", &mut order);
    let mut names = [Cell::empty(); 4];
    let mut gates = [Gate::binary(GateKind::Or, 7, 7); 3];
    let mut outputs = [Output::empty(); 2];
    let read = read_rules(
        Notation::Gates,
        b"GAT 1\nc = not a\nout c\n",
        &order,
        &mut names,
        &mut gates,
        &mut outputs,
    );
    assert!(rt; read.is_ok());
    assert_eq!(rt; (gates[0].kind, gates[0].first), (5, 0));
    assert_eq!(rt; (gates[1].kind, gates[2].kind), (0, 0), "the rest is empty");
    assert_eq!(rt; (outputs[0].signal, outputs[1].name.is_empty()), (1, true));
    let refused = read_rules(
        Notation::Gates,
        b"GAT 1\nc = not a\nd =\n",
        &order,
        &mut names,
        &mut gates,
        &mut outputs,
    );
    assert!(rt; refused.is_err());
    assert_eq!(rt; (gates[0].kind, gates[1].kind), (0, 0), "all is empty");
    assert!(rt; outputs[0].name.is_empty());
}
