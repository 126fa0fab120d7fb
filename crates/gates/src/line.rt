ghost use Rattle.std.specs.Prelude.{Some};
ghost use Rattle.gates.specs.Lines.{line_text};

use model::{Gate, GateKind};
use std::fmt;

/// A gate as it is listed: its signal, its word, and its constant or its arguments.
#[derive(Clone, Copy, Debug, PartialEq, Eq)]
pub struct Line {
    pub signal: usize,
    pub kind: GateKind,
    pub gate: Gate,
}

impl fmt::Display for Line {
    ghost output = { λ line. Some (line_text line) };

    fn fmt<W: fmt::Write>(&self, f: &mut fmt::Formatter<W>) -> fmt::Result {
        let signal = self.signal;
        let kind = self.kind;
        let number = self.gate.number;
        let first = self.gate.first;
        let second = self.gate.second;
        match kind.arity() {
            0 => write!(f, "{signal} {kind} {number}"),
            1 => write!(f, "{signal} {kind} {first}"),
            _ => write!(f, "{signal} {kind} {first} {second}"),
        }
    }
}
