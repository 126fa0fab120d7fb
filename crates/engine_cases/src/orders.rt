use model::{Decomposition, Fact, Name, Node, Order, Root};
use std::process::Abort;
use std::test::Fail;

// What an unused place of a plain store holds.
pub(crate) const BLANK: Node = Node {
    fact: 0,
    low: Root::Inner(0),
    high: Root::Inner(0),
};

// An order of facts of these types, named a, b and so on.
pub(crate) fn order(rt: &impl Abort, types: &[Decomposition]) -> Result<Order, Fail> {
    let mut order = Order::new();
    for (decomposition, letter) in types.iter().zip(b"abcdefghijklmnopqrstuvwxyz".chunks(1)) {
        let fact = Fact {
            decomposition: *decomposition,
            name: Name::try_from(letter)?,
        };
        assert_eq!(rt; order.add(fact), Ok(()));
    }
    Ok(order)
}

// Six types, from the digits of a number.
pub(crate) fn mixed_types(number: usize) -> [Decomposition; 6] {
    let mut types = [Decomposition::Shannon; 6];
    let mut left = number;
    for decomposition in types.iter_mut() {
        *decomposition = match left % 3 {
            0 => Decomposition::PositiveDavio,
            1 => Decomposition::NegativeDavio,
            _ => Decomposition::Shannon,
        };
        left /= 3;
    }
    types
}
