ghost use Rattle.std.specs.Prelude.{◌<◌};

use model::{Fault, Gate, GateKind, Order, Output};
use sheets::{Counts, Notation, read_order, read_rules};
use std::process::Abort;
use table::Cell;

// A rule sheet, with what reading it answers.
#[derive(Clone, Copy)]
pub(crate) struct Case {
    text: &'static [u8],
    answer: Result<Counts, Fault>,
    about: &'static str,
}

pub(crate) const fn on(
    text: &'static [u8],
    answer: Result<Counts, Fault>,
    about: &'static str,
) -> Case {
    Case {
        text,
        answer,
        about,
    }
}

// A sheet that is read, with this many gates and outputs.
pub(crate) const fn made(gates: usize, outputs: usize) -> Result<Counts, Fault> {
    Ok(Counts { gates, outputs })
}

// Rule sheets in one notation over the facts of one order sheet.
#[derive(Clone, Copy)]
pub(crate) struct Sheets {
    pub(crate) notation: Notation,
    pub(crate) order: &'static [u8],
}

impl Sheets {
    // What reading answers, with room for N names, G gates and O outputs.
    pub(crate) fn read<const N: usize, const G: usize, const O: usize>(
        self,
        text: &[u8],
    ) -> Result<Counts, Fault>
        requires { (N < 1000) × (G < 1000) × (O < 1000) }
    {
        let mut order = Order::new();
        let _ = read_order(self.order, &mut order);
        let mut names = [Cell::empty(); N];
        let mut gates = [Gate::binary(GateKind::Or, 7, 7); G];
        let mut outputs = [Output::empty(); O];
        read_rules(
            self.notation,
            text,
            &order,
            &mut names,
            &mut gates,
            &mut outputs,
        )
    }

    // Each case, with room for all of it.
    pub(crate) fn answers(self, rt: &impl Abort, cases: &[Case]) {
        for case in cases {
            assert_eq!(rt;
                self.read::<20, 40, 20>(case.text),
                case.answer,
                "{}",
                case.about
            );
        }
    }
}
