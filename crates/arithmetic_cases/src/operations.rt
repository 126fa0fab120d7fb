use super::twisted::Twisted;
use arithmetic::{Amounts, Arithmetic, YesNo};

// (a b) c and a (b c).
fn products<A: Arithmetic>(a: u32, b: u32, c: u32) -> (u32, u32) {
    (
        A::product(A::product(a, b), c),
        A::product(a, A::product(b, c)),
    )
}

#[test]
fn yes_no(rt: HostRuntime) {
    assert_eq!(rt; (YesNo::ZERO, YesNo::ONE), (0, 1));
    assert!(rt; YesNo::is_value(1));
    assert!(rt; !YesNo::is_value(2));
    assert_eq!(rt; YesNo::sum(1, 1), 0);
    assert_eq!(rt; YesNo::sum(1, 0), 1);
    assert_eq!(rt; YesNo::product(1, 1), 1);
    assert_eq!(rt; YesNo::product(1, 0), 0);
    assert_eq!(rt; YesNo::minus(1), 1);
}

#[test]
fn amounts(rt: HostRuntime) {
    assert_eq!(rt; (Amounts::ZERO, Amounts::ONE), (0, 1));
    assert!(rt; Amounts::is_value(u32::MAX));
    assert_eq!(rt; Amounts::sum(u32::MAX, 2), 1);
    assert_eq!(rt; Amounts::product(0x8000_0001, 2), 2);
    assert_eq!(rt; Amounts::minus(1), u32::MAX);
    assert_eq!(rt; Amounts::minus(0), 0);
}

#[test]
fn twisted(rt: HostRuntime) {
    assert_eq!(rt; (Twisted::ZERO, Twisted::ONE), (8, 9));
    assert!(rt; !Twisted::is_value(7) && Twisted::is_value(8));
    assert!(rt; Twisted::is_value(15) && !Twisted::is_value(16));
    assert_eq!(rt; Twisted::sum(10, 12), 14);
    assert_eq!(rt;
        products::<Twisted>(10, 10, 12),
        (8, 10),
        "the product is not associative"
    );
    assert_eq!(rt; products::<Amounts>(10, 10, 12), (1200, 1200));
}
