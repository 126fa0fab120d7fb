ghost use Rattle.arithmetic.specs.Amounts.{amounts};
ghost use Rattle.std.specs.Prelude.{◌^◌, refl};
ghost use Rattle.std.proofs.Common.{arith};
ghost use Rattle.arithmetic.specs.Modulo.{modulo_closed, modulo_laws};

use crate::ring::Arithmetic;

/// Every 32-bit number, modulo 2 to the 32nd.
#[derive(Clone, Copy, Debug, PartialEq, Eq)]
pub struct Amounts;

impl Arithmetic for Amounts {
    const ZERO: u32 = 0;

    const ONE: u32 = 1;

    ghost ZERO = { 0 };

    ghost ONE = { 1 };

    ghost ring = { amounts };

    ghost zero_is = { refl };

    ghost one_is = { refl };

    ghost closed = { modulo_closed (2 ^ 32) (omega arith) };

    ghost laws = { modulo_laws (2 ^ 32) (omega arith) };

    fn is_value(_number: u32) -> bool {
        true
    }

    fn sum(a: u32, b: u32) -> u32 {
        a.wrapping_add(b)
    }

    fn product(a: u32, b: u32) -> u32 {
        a.wrapping_mul(b)
    }

    fn minus(a: u32) -> u32 {
        a.wrapping_neg()
    }
}
