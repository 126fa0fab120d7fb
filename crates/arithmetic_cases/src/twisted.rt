ghost use Rattle.std.specs.Prelude.{refl};
ghost use Rattle.arithmetic_cases.specs.Twisted.{twisted};
ghost use Rattle.arithmetic_cases.specs.TwistedLaws.{twisted_closed, twisted_laws};

use arithmetic::Arithmetic;

// The values 8 to 15, as polynomials c + a x + b y over 0 and 1: 8 + c + 2 a + 4 b. A product of x and y is one,
// and x and y have the square zero. So (x x) y is zero, and x (x y) is x.
#[derive(Clone, Copy, Debug, PartialEq, Eq)]
pub struct Twisted;

impl Arithmetic for Twisted {
    const ZERO: u32 = 8;

    const ONE: u32 = 9;

    ghost ZERO = { 8 };

    ghost ONE = { 9 };

    ghost ring = { twisted };

    ghost zero_is = { refl };

    ghost one_is = { refl };

    ghost closed = { twisted_closed };

    ghost laws = { twisted_laws };

    fn is_value(number: u32) -> bool {
        number / 8 == 1
    }

    fn sum(a: u32, b: u32) -> u32 {
        a ^ b ^ 8
    }

    fn product(a: u32, b: u32) -> u32 {
        let constant = (a & b) ^ (a / 2 & b / 4) ^ (a / 4 & b / 2);
        let x = (a & b / 2) ^ (a / 2 & b);
        let y = (a & b / 4) ^ (a / 4 & b);
        8 + constant % 2 + 2 * (x % 2) + 4 * (y % 2)
    }

    fn minus(a: u32) -> u32 {
        a
    }
}
