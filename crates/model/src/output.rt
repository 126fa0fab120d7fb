ghost use Rattle.std.specs.Prelude.{◌≡◌, []};
ghost use Rattle.model.specs.Outputs.{empty_output};
ghost use Rattle.model.specs.Spelling.{spelling};

use crate::name::Name;

/// A named output of a net: the signal that it gives.
#[derive(Clone, Copy, Debug, PartialEq, Eq)]
pub struct Output {
    pub name: Name,
    pub signal: u32,
}

impl Output {
    /// No output: the empty name and signal 0.
    pub fn empty() -> Output
        ensures name { spelling result.name ≡ [] }
        ensures signal { result.signal ≡ 0 }
        ensures whole { result ≡ empty_output }
    {
        Output {
            name: Name::empty(),
            signal: 0,
        }
    }
}
