ghost use Rattle.std.specs.Prelude.{◌%◌};
ghost use Rattle.table.specs.KeysBy.{laws_by};

use table::Key;

// A plain number.
#[derive(Clone, Copy, Debug, PartialEq, Eq)]
pub struct Number(pub u32);

impl Key for Number {
    ghost code = { λ x. x.0 };

    ghost same_code = { (laws_by (λ x. x.0) (λ n. n)).same_code };

    fn hash(&self) -> u32 {
        self.0
    }
}

// A number with a label that equality ignores.
#[derive(Clone, Copy, Debug)]
#[derive_where(PartialEq, Eq)]
pub struct Labelled {
    pub number: u32,
    #[derive_where(skip(EqHashOrd))]
    pub label: char,
}

impl Key for Labelled {
    ghost code = { λ x. x.number % 8 };

    ghost same_code = { (laws_by (λ x. x.number) (λ n. n % 8)).same_code };

    fn hash(&self) -> u32 {
        self.number % 8
    }
}

// A number that has the hash of every other.
#[derive(Clone, Copy, Debug, PartialEq, Eq)]
pub struct Clashing(pub u32);

impl Key for Clashing {
    ghost code = { λ _. 7 };

    ghost same_code = { (laws_by (λ x. x.0) (λ _. 7)).same_code };

    fn hash(&self) -> u32 {
        7
    }
}
