use model::{Fault, Order, Refusal};
use sheets::read_order;
use std::alloc::{AllocError, Global};
use std::process::Abort;
use std::test::Fail;

// How many facts were read. A refused sheet leaves an empty order.
fn outcome(rt: &impl Abort, text: &[u8]) -> Result<usize, Fault> {
    let mut order = Order::new();
    let read = read_order(text, &mut order);
    if read.is_err() {
        assert_eq!(rt; order.len(), 0);
    }
    read?;
    Ok(order.len())
}

// A text of `front`, then `b` as often as it takes to make `len` bytes.
fn filled(heap: Global, front: &[u8], b: u8, len: usize) -> Result<Vec<u8>, AllocError> {
    let mut text = Vec::from_slice(heap, front)?;
    text.resize(len, b)?;
    Ok(text)
}

// A sheet of `count` facts.
fn sheet_of(heap: Global, count: u8) -> Result<Vec<u8>, AllocError> {
    let mut text = Vec::from_slice(heap, b"ORD 1\n")?;
    for i in 0..count {
        text.extend_from_slice(b"P fact_")?;
        text.push(b'a' + i / 10 % 10)?;
        text.push(b'0' + i % 10)?;
        text.push(b'\n')?;
    }
    Ok(text)
}

#[test]
fn first_lines(rt: HostRuntime) {
    assert_eq!(rt;
        outcome(&rt, b""),
        Err(Refusal::BadHeading.at(0)),
        "an empty text"
    );
    assert_eq!(rt; outcome(&rt, b"ORD 1"), Ok(0), "no newline");
    assert_eq!(rt; outcome(&rt, b"ORD 1\n"), Ok(0), "no facts");
    assert_eq!(rt;
        outcome(&rt, b"ORD 0\n"),
        Err(Refusal::WrongVersion.at(0)),
        "version 0"
    );
    assert_eq!(rt;
        outcome(&rt, b"ORD 2\n"),
        Err(Refusal::WrongVersion.at(0)),
        "version 2"
    );
    assert_eq!(rt;
        outcome(&rt, b"ORD 65535\n"),
        Err(Refusal::WrongVersion.at(0)),
        "the largest version"
    );
    assert_eq!(rt;
        outcome(&rt, b"ORD 65536\n"),
        Err(Refusal::BadHeading.at(0)),
        "no 16-bit number"
    );
    assert_eq!(rt;
        outcome(&rt, b"ORD 99999999999999999999\n"),
        Err(Refusal::BadHeading.at(0)),
        "no 32-bit number"
    );
    assert_eq!(rt;
        outcome(&rt, b"ORD 01\n"),
        Err(Refusal::BadHeading.at(0)),
        "a needless zero"
    );
    assert_eq!(rt;
        outcome(&rt, b"ORD 1 \n"),
        Err(Refusal::BadHeading.at(0)),
        "a space after the version"
    );
    assert_eq!(rt;
        outcome(&rt, b"ORD  1\n"),
        Err(Refusal::BadHeading.at(0)),
        "two spaces"
    );
    assert_eq!(rt;
        outcome(&rt, b"ORD\n"),
        Err(Refusal::BadHeading.at(0)),
        "no version"
    );
    assert_eq!(rt;
        outcome(&rt, b" ORD 1\n"),
        Err(Refusal::BadHeading.at(0)),
        "a space in front"
    );
}

#[test]
fn other_first_lines(rt: HostRuntime) {
    assert_eq!(rt;
        outcome(&rt, b"GAT 1\n"),
        Err(Refusal::BadHeading.at(0)),
        "a gate sheet"
    );
    assert_eq!(rt;
        outcome(&rt, b"FRM 1\n"),
        Err(Refusal::BadHeading.at(0)),
        "a formula sheet"
    );
    assert_eq!(rt;
        outcome(&rt, b"ord 1\n"),
        Err(Refusal::BadHeading.at(0)),
        "small letters"
    );
    assert_eq!(rt;
        outcome(&rt, b"\nORD 1\n"),
        Err(Refusal::BadHeading.at(0)),
        "a blank first line"
    );
    assert_eq!(rt;
        outcome(&rt, b"# facts\nORD 1\n"),
        Err(Refusal::BadHeading.at(0)),
        "a comment as first line"
    );
}

#[test]
fn bytes(rt: HostRuntime) {
    assert_eq!(rt;
        outcome(&rt, b"ORD 1\nS\tlic\n"),
        Err(Refusal::BadByte.at(7)),
        "a tab"
    );
    assert_eq!(rt;
        outcome(&rt, b"ORD 1\r\nS lic\r\n"),
        Err(Refusal::BadByte.at(5)),
        "a carriage return"
    );
    assert_eq!(rt;
        outcome(&rt, b"ORD 1\n# \x7f\n"),
        Err(Refusal::BadByte.at(8)),
        "byte 127 in a comment"
    );
    assert_eq!(rt;
        outcome(&rt, b"ORD 1\n# \x7e\n"),
        Ok(0),
        "byte 126 in a comment"
    );
    assert_eq!(rt;
        outcome(&rt, b"ORD 1\n# \x1f\n"),
        Err(Refusal::BadByte.at(8)),
        "byte 31"
    );
    assert_eq!(rt;
        outcome(&rt, b"ORD 1\nS \xc3\xa9t\n"),
        Err(Refusal::BadByte.at(8)),
        "bytes past ASCII"
    );
    assert_eq!(rt;
        outcome(&rt, b"\x00"),
        Err(Refusal::BadByte.at(0)),
        "a byte before the first line"
    );
    assert_eq!(rt;
        outcome(&rt, b"ORD 9\n\xff"),
        Err(Refusal::BadByte.at(6)),
        "a byte before the version"
    );
}

#[test]
fn lines(rt: HostRuntime) {
    assert_eq!(rt; outcome(&rt, b"ORD 1\nS lic"), Ok(1), "no last newline");
    assert_eq!(rt; outcome(&rt, b"ORD 1\nSlic\n"), Ok(1), "no space");
    assert_eq!(rt; outcome(&rt, b"ORD 1\n  N   lic  \n"), Ok(1), "spaces");
    assert_eq!(rt;
        outcome(&rt, b"ORD 1\n\n   \n# a (\n  # b\nP lic\n"),
        Ok(1),
        "blank lines and comments"
    );
    assert_eq!(rt;
        outcome(&rt, b"ORD 1\nS 9a\n"),
        Err(Refusal::NoForm.at(6)),
        "a run that is neither name nor number"
    );
    assert_eq!(rt;
        outcome(&rt, b"ORD 1\nS 9\n"),
        Err(Refusal::NoForm.at(6)),
        "a number for a name"
    );
    assert_eq!(rt;
        outcome(&rt, b"ORD 1\nS _a\n"),
        Err(Refusal::NoForm.at(6)),
        "a name with _ first"
    );
    assert_eq!(rt;
        outcome(&rt, b"ORD 1\nS lic # now\n"),
        Err(Refusal::NoForm.at(6)),
        "a comment after a fact"
    );
    assert_eq!(rt;
        outcome(&rt, b"ORD 1\nS\n"),
        Err(Refusal::NoForm.at(6)),
        "no name"
    );
    assert_eq!(rt;
        outcome(&rt, b"ORD 1\nS P lic\n"),
        Err(Refusal::NoForm.at(6)),
        "two types"
    );
    assert_eq!(rt;
        outcome(&rt, b"ORD 1\nS lic high\n"),
        Err(Refusal::NoForm.at(6)),
        "two names"
    );
    assert_eq!(rt;
        outcome(&rt, b"ORD 1\nQ lic\n"),
        Err(Refusal::NoForm.at(6)),
        "no type"
    );
    assert_eq!(rt;
        outcome(&rt, b"ORD 1\nlic S\n"),
        Err(Refusal::NoForm.at(6)),
        "the name first"
    );
    assert_eq!(rt;
        outcome(&rt, b"ORD 1\nS Lic\n"),
        Err(Refusal::NoForm.at(6)),
        "a capital letter in a name"
    );
}

#[test]
fn names_and_places(rt: HostRuntime) {
    assert_eq!(rt;
        outcome(&rt, b"ORD 1\nS a23456789_123456\n"),
        Ok(1),
        "a name of 16 bytes"
    );
    assert_eq!(rt;
        outcome(&rt, b"ORD 1\nS a23456789_1234567\n"),
        Err(Refusal::NoForm.at(6)),
        "a name of 17 bytes"
    );
    assert_eq!(rt;
        outcome(&rt, b"ORD 1\nS lic\nP lic\n"),
        Err(Refusal::NamedTwice.at(12)),
        "a fact twice"
    );
    assert_eq!(rt;
        outcome(&rt, b"ORD 1\nS lic\nP lice\n"),
        Ok(2),
        "a name that another begins with"
    );
    assert_eq!(rt;
        outcome(&rt, b"ORD 1\n\n  S lic\n  P lic"),
        Err(Refusal::NamedTwice.at(15)),
        "the place of a line with spaces in front"
    );
    assert_eq!(rt;
        outcome(&rt, b"ORD 1\nS lic\nbad\nS lic\n"),
        Err(Refusal::NoForm.at(12)),
        "the first line that fails"
    );
}

#[test]
fn brackets(rt: HostRuntime) -> Result<(), Fail> {
    let heap = rt.alloc();
    let start = b"ORD 1\nS ".len();
    assert_eq!(rt;
        outcome(
            &rt,
            filled(heap, b"ORD 1\nS ", b'(', start + 32)?.as_slice()
        ),
        Err(Refusal::NoForm.at(6)),
        "32 brackets"
    );
    assert_eq!(rt;
        outcome(
            &rt,
            filled(heap, b"ORD 1\nS ", b'(', start + 33)?.as_slice()
        ),
        Err(Refusal::TooManyBrackets.at(6)),
        "33 brackets"
    );
    assert_eq!(rt;
        outcome(
            &rt,
            filled(heap, b"ORD 1\n9a", b'!', start + 33)?.as_slice()
        ),
        Err(Refusal::TooManyBrackets.at(6)),
        "33 nots beside a bad run"
    );
    assert_eq!(rt;
        outcome(
            &rt,
            filled(heap, b"ORD 1\n!(", b'!', start + 31)?.as_slice()
        ),
        Err(Refusal::TooManyBrackets.at(6)),
        "33 brackets and nots"
    );
    assert_eq!(rt;
        outcome(
            &rt,
            filled(heap, b"ORD 1\nS)", b')', start + 40)?.as_slice()
        ),
        Err(Refusal::NoForm.at(6)),
        "closing brackets do not count"
    );
    assert_eq!(rt;
        outcome(
            &rt,
            filled(heap, b"ORD 1\n# ", b'(', start + 40)?.as_slice()
        ),
        Ok(0),
        "40 brackets in a comment"
    );
    Ok(())
}

#[test]
fn lengths(rt: HostRuntime) -> Result<(), Fail> {
    let heap = rt.alloc();
    assert_eq!(rt;
        outcome(&rt, filled(heap, b"ORD 1\n#", b'-', 65535)?.as_slice()),
        Ok(0),
        "65,535 bytes"
    );
    assert_eq!(rt;
        outcome(&rt, filled(heap, b"ORD 1\n#", b'-', 65536)?.as_slice()),
        Err(Refusal::TextTooLong.at(0)),
        "65,536 bytes"
    );
    assert_eq!(rt;
        outcome(&rt, filled(heap, b"", b'\x07', 65536)?.as_slice()),
        Err(Refusal::TextTooLong.at(0)),
        "a long text of bad bytes"
    );
    assert_eq!(rt;
        outcome(&rt, sheet_of(heap, 40)?.as_slice()),
        Ok(40),
        "40 facts"
    );
    assert_eq!(rt;
        outcome(&rt, sheet_of(heap, 41)?.as_slice()),
        Err(Refusal::TooManyFacts.at(406)),
        "41 facts"
    );
    Ok(())
}

#[test]
fn facts(rt: HostRuntime) -> Result<(), Fail> {
    let mut order = Order::new();
    assert!(rt; read_order(b"ORD 1\nS lic\nP high\nN origin\n", &mut order).is_ok());
    let Some(fact) = order.fact(2) else {
        return Err(Fail::new("no third fact"));
    };
    assert_eq!(rt; char::from(fact.decomposition), 'N');
    let name = fact.name;
    assert_eq!(rt; format!(in rt.alloc(); "{name}")?.as_str(), "origin");
    assert!(rt; order.fact(3).is_none());
    assert_eq!(rt; order.find(&name), Some(2));
    assert!(rt; read_order(b"ORD 1\nS lic\nS\n", &mut order).is_err());
    assert_eq!(rt; order.len(), 0, "a refused sheet leaves an empty order");
    Ok(())
}
