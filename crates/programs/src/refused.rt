ghost use Rattle.std.specs.Prelude.{◌≡◌, codes, Some};
ghost use Rattle.programs.specs.Refused.{refused_text};

use model::Fault;
use std::error::Error;
use std::fmt;

pub(crate) const ORDER: &str = "order.txt";

pub(crate) const SHEET: &str = "sheet.txt";

/// A file that was turned down. It is shown as the file, `refused`, and the refusal's number, layer and place.
#[derive(Clone, Copy, Debug, PartialEq, Eq)]
pub struct Refused {
    pub file: &'static str,
    pub fault: Fault,
}

impl Refused {
    /// A fault of the order sheet `order.txt`.
    pub fn in_order(fault: Fault) -> Refused
        ensures file { result.file.now ≡ codes "order.txt" }
        ensures fault { result.fault ≡ fault }
    {
        Refused { file: ORDER, fault }
    }

    /// A fault of the rule sheet `sheet.txt`.
    pub fn in_sheet(fault: Fault) -> Refused
        ensures file { result.file.now ≡ codes "sheet.txt" }
        ensures fault { result.fault ≡ fault }
    {
        Refused { file: SHEET, fault }
    }
}

// `thiserror` would write this one, but what it writes has no contract.
impl fmt::Display for Refused {
    ghost output = { λ r. Some (refused_text r) };

    fn fmt<W: fmt::Write>(&self, f: &mut fmt::Formatter<W>) -> fmt::Result {
        let file = self.file;
        let fault = self.fault;
        write!(f, "{file} refused {fault}")
    }
}

impl Error for Refused {}
