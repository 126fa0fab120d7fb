ghost use Rattle.std.specs.Prelude.{refl};
ghost use Rattle.arithmetic.specs.YesNo.{yes_no};
ghost use Rattle.std.proofs.Common.{rules};

use crate::ring::Arithmetic;

/// Yes is 1 and no is 0. The sum is exclusive or, the product is `and`, and minus leaves the value.
#[derive(Clone, Copy, Debug, PartialEq, Eq)]
pub struct YesNo;

impl Arithmetic for YesNo {
    const ZERO: u32 = 0;

    const ONE: u32 = 1;

    ghost ZERO = { 0 };

    ghost ONE = { 1 };

    ghost ring = { yes_no };

    ghost zero_is = { refl };

    ghost one_is = { refl };

    ghost closed = { Prim.search rules };

    ghost laws = { Prim.search rules };

    fn is_value(number: u32) -> bool {
        number < 2
    }

    fn sum(a: u32, b: u32) -> u32 {
        a ^ b
    }

    fn product(a: u32, b: u32) -> u32 {
        a & b
    }

    fn minus(a: u32) -> u32 {
        a
    }
}
