use crate::cases::{Sheets, made, on};
use model::{Fault, Gate, Order, Output, Refusal};
use sheets::{Counts, Notation, read_order, read_rules};
use std::test::Fail;
use table::Cell;

// Formula sheets over the facts `a`, `b` and `c`.
const SHEETS: Sheets = Sheets {
    notation: Notation::Formulas,
    order: b"ORD 1\nS a\nP b\nN c\n",
};

#[test]
fn first_lines(rt: HostRuntime) {
    SHEETS.answers(
        &rt,
        &[
            on(b"FRM 1", made(0, 0), "no line"),
            on(
                b"FRM 2\n",
                Err(Refusal::WrongVersion.at(0)),
                "another version",
            ),
            on(b"GAT 1\n", Err(Refusal::BadHeading.at(0)), "a gate sheet"),
            on(
                b"FRM 1 \n",
                Err(Refusal::BadHeading.at(0)),
                "a space after the version",
            ),
        ],
    );
    assert_eq!(rt; Notation::of_text(b"FRM 1\n"), Notation::Formulas);
    assert_eq!(rt; Notation::of_text(b"GAT 1\n"), Notation::Gates);
    assert_eq!(rt; Notation::of_text(b"FR"), Notation::Gates);
}

#[test]
fn definitions(rt: HostRuntime) {
    SHEETS.answers(
        &rt,
        &[
            on(b"FRM 1\nx = a\n", made(0, 0), "a name makes no gate"),
            on(
                b"FRM 1\nx = a\ny = x\nout y\n",
                made(0, 1),
                "nor does another name for it",
            ),
            on(b"FRM 1\nx = 7", made(1, 0), "a number"),
            on(b"FRM 1\nx=a|b+c*a", made(3, 0), "no spaces"),
            on(b"FRM 1\nx = a - b - c\n", made(4, 0), "differences"),
            on(
                b"FRM 1\nx = a - b + c\n",
                made(3, 0),
                "a difference and a sum",
            ),
            on(b"FRM 1\nx = !a * b\n", made(2, 0), "not of a factor"),
            on(b"FRM 1\nx = !(a | b)\n", made(2, 0), "not of a formula"),
            on(b"FRM 1\nx = !!a\n", made(2, 0), "not of not"),
            on(
                b"FRM 1\nx = 1 + 1 + 1\n",
                made(5, 0),
                "each number is a gate",
            ),
            on(b"FRM 1\nx = 4294967295\n", made(1, 0), "the largest number"),
            on(
                b"FRM 1\nx = (a)\ny = ((x))\n",
                made(0, 0),
                "brackets make no gate",
            ),
            on(
                b"FRM 1\nor = a | b\nsum = or + or\n",
                made(2, 0),
                "gate words as names",
            ),
        ],
    );
}

#[test]
fn forms(rt: HostRuntime) {
    SHEETS.answers(
        &rt,
        &[
            on(
                b"FRM 1\nx = -b\n",
                Err(Refusal::NoForm.at(6)),
                "no minus in front",
            ),
            on(
                b"FRM 1\nx = +b\n",
                Err(Refusal::NoForm.at(6)),
                "no plus in front",
            ),
            on(
                b"FRM 1\nx = ()\n",
                Err(Refusal::NoForm.at(6)),
                "empty brackets",
            ),
            on(
                b"FRM 1\nout = b\n",
                Err(Refusal::NoForm.at(6)),
                "an output line",
            ),
            on(b"FRM 1\nx = \n", Err(Refusal::NoForm.at(6)), "no formula"),
            on(b"FRM 1\nx\n", Err(Refusal::NoForm.at(6)), "no sign"),
            on(
                b"FRM 1\nx = (b\n",
                Err(Refusal::NoForm.at(6)),
                "an open bracket",
            ),
            on(
                b"FRM 1\nx = b)\n",
                Err(Refusal::NoForm.at(6)),
                "a closing bracket too many",
            ),
            on(b"FRM 1\nx = (b))\n", Err(Refusal::NoForm.at(6)), "one more"),
            on(
                b"FRM 1\nx = (a | b * (c)\n",
                Err(Refusal::NoForm.at(6)),
                "one less",
            ),
            on(b"FRM 1\nx = b c\n", Err(Refusal::NoForm.at(6)), "two names"),
            on(
                b"FRM 1\nx = (a)(b)\n",
                Err(Refusal::NoForm.at(6)),
                "two brackets",
            ),
            on(
                b"FRM 1\nx = a !b\n",
                Err(Refusal::NoForm.at(6)),
                "a name and a not",
            ),
            on(
                b"FRM 1\nx = * b\n",
                Err(Refusal::NoForm.at(6)),
                "no first factor",
            ),
            on(
                b"FRM 1\nx = b |\n",
                Err(Refusal::NoForm.at(6)),
                "no last part",
            ),
            on(
                b"FRM 1\nx = a + | b\n",
                Err(Refusal::NoForm.at(6)),
                "no last term",
            ),
            on(
                b"FRM 1\nx = a - * b\n",
                Err(Refusal::NoForm.at(6)),
                "no factor",
            ),
            on(
                b"FRM 1\nx = a - - b\n",
                Err(Refusal::NoForm.at(6)),
                "two signs",
            ),
            on(
                b"FRM 1\nx = !\n",
                Err(Refusal::NoForm.at(6)),
                "not of nothing",
            ),
            on(
                b"FRM 1\nx = 00\n",
                Err(Refusal::NoForm.at(6)),
                "a needless zero",
            ),
            on(
                b"FRM 1\nx = 4294967296\n",
                Err(Refusal::NoForm.at(6)),
                "one more than the largest number",
            ),
            on(
                b"FRM 1\nx = a 9b\n",
                Err(Refusal::NoForm.at(6)),
                "a run that is no token",
            ),
            on(
                b"FRM 1\nx = a & b\n",
                Err(Refusal::NoForm.at(6)),
                "a sign that there is not",
            ),
            on(b"FRM 1\nx = S\n", Err(Refusal::NoForm.at(6)), "a type"),
            on(
                b"FRM 1\nx = sum a b\n",
                Err(Refusal::NoForm.at(6)),
                "a gate",
            ),
            on(
                b"FRM 1\nx = a = b\n",
                Err(Refusal::NoForm.at(6)),
                "two signs for is",
            ),
            on(
                b"FRM 1\nx = a # b\n",
                Err(Refusal::NoForm.at(6)),
                "a comment cannot follow",
            ),
        ],
    );
}

#[test]
fn names(rt: HostRuntime) {
    SHEETS.answers(
        &rt,
        &[
            on(
                b"FRM 1\na = a\n",
                Err(Refusal::NamedTwice.at(6)),
                "a fact as itself",
            ),
            on(
                b"FRM 1\nx = x\n",
                Err(Refusal::UnknownName.at(6)),
                "a name in its own definition",
            ),
            on(
                b"FRM 1\nx = a | (b + !y)\n",
                Err(Refusal::UnknownName.at(6)),
                "an unknown name",
            ),
            on(
                b"FRM 1\nx = y * (a\n",
                Err(Refusal::NoForm.at(6)),
                "an unknown name before a fault of form",
            ),
            on(
                b"FRM 1\na = y\n",
                Err(Refusal::UnknownName.at(6)),
                "unknown before repeated",
            ),
            on(
                b"FRM 1\nx = a\nx = b\n",
                Err(Refusal::NamedTwice.at(12)),
                "defined twice",
            ),
            on(
                b"FRM 1\nx = y\ny = a\n",
                Err(Refusal::UnknownName.at(6)),
                "defined below",
            ),
            on(
                b"FRM 1\nout x\nx = a\n",
                Err(Refusal::UnknownName.at(6)),
                "listed above",
            ),
            on(
                b"FRM 1\nx = a\nout x\nout x\n",
                Err(Refusal::NamedTwice.at(18)),
                "listed twice",
            ),
        ],
    );
}

#[test]
fn room(rt: HostRuntime) {
    assert_eq!(rt;
        SHEETS.read::<4, 5, 4>(b"FRM 1\nx = 1 + 1 + 1\n"),
        made(5, 0),
        "exact"
    );
    assert_eq!(rt;
        SHEETS.read::<4, 4, 4>(b"FRM 1\nx = 1 + 1 + 1\n"),
        Err(Refusal::SheetTooLarge.at(6)),
        "a gate less"
    );
    assert_eq!(rt;
        SHEETS.read::<3, 5, 4>(b"FRM 1\nx = 1 + 1 + 1\n"),
        Err(Refusal::SheetTooLarge.at(6)),
        "a name cell less"
    );
    assert_eq!(rt;
        SHEETS.read::<4, 0, 4>(b"FRM 1\nx = a\n"),
        made(0, 0),
        "no gates for a name"
    );
    assert_eq!(rt;
        SHEETS.read::<4, 0, 4>(b"FRM 1\nx = 1 + y\n"),
        Err(Refusal::UnknownName.at(6)),
        "unknown before room"
    );
    assert_eq!(rt;
        SHEETS.read::<3, 0, 4>(b"FRM 1\na = 1\n"),
        Err(Refusal::NamedTwice.at(6)),
        "repeated before room"
    );
}

#[test]
fn brackets(rt: HostRuntime) {
    SHEETS.answers(
        &rt,
        &[
            on(
                b"FRM 1\nx = ((((((((((((((((((((((((((((((((a))))))))))))))))))))))))))))))))\n",
                made(0, 0),
                "32 brackets",
            ),
            on(
                b"FRM 1\nx = (((((((((((((((((((((((((((((((((a)))))))))))))))))))))))))))))))))\n",
                Err(Refusal::TooManyBrackets.at(6)),
                "33 brackets",
            ),
            on(
                b"FRM 1\nx = !!!!!!!!!!!!!!!!!!!!!!!!!!!!!!!!a\n",
                made(32, 0),
                "32 nots",
            ),
            on(
                b"FRM 1\nx = !!!!!!!!!!!!!!!!((((((((((((((((a | b))))))))))))))))\n",
                made(17, 0),
                "16 of each",
            ),
            on(
                b"FRM 1\nx = (!(!(!(!(!(!(!(!(!(!(!(!(!(!(!(!a))))))))))))))))\n",
                made(16, 0),
                "in turn",
            ),
            on(
                b"FRM 1\nx = !a*!a*!a*!a*!a*!a*!a*!a*!a*!a*!a*!a*!a*!a*!a*!a*!a*!a*!a*!a*!a*!a*!a*!a*!a*!a*!a*!a*!a*!a*!a*!a*!a\n",
                Err(Refusal::TooManyBrackets.at(6)),
                "33 side by side",
            ),
        ],
    );
}

// What reading answers where one definition makes as many gates as a sheet may have, and other lines follow.
fn after_many(rt: &HostRuntime, lines: &[u8], room: usize) -> Result<Result<Counts, Fault>, Fail> {
    let mut text = b"FRM 1\nx=1".to_vec(rt.alloc())?;
    for _ in 0..21845 {
        text.extend_from_slice(b"-1")?;
    }
    text.extend_from_slice(lines)?;
    let mut order = Order::new();
    let _ = read_order(b"ORD 1\nS a\n", &mut order);
    let mut names = [Cell::empty(); 4];
    let mut gates = vec![in rt.alloc(); Gate::empty(); room]?;
    let mut outputs = [Output::empty(); 1];
    Ok(read_rules(
        Notation::Formulas,
        text.as_slice(),
        &order,
        &mut names,
        gates.as_mut_slice(),
        &mut outputs,
    ))
}

#[test]
fn largest(rt: HostRuntime) -> Result<(), Fail> {
    assert_eq!(rt;
        after_many(&rt, b"", 65536)?,
        made(65536, 0),
        "65,536 gates"
    );
    assert_eq!(rt;
        after_many(&rt, b"\ny=1", 70000)?,
        Err(Refusal::SheetTooLarge.at(43700)),
        "one more, which the list would hold"
    );
    assert_eq!(rt;
        after_many(&rt, b"\ny=x\nout y", 65536)?,
        made(65536, 1),
        "a name more"
    );
    assert_eq!(rt;
        after_many(&rt, b"", 65535)?,
        Err(Refusal::SheetTooLarge.at(6)),
        "a list too short"
    );
    Ok(())
}
