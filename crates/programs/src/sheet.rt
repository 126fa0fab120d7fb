ghost use Rattle.std.specs.Prelude.{◌≡◌, codes, Ok, Err, IfOk, IfErr};
ghost use Rattle.std.specs.IoError.{error_kind};
ghost use Rattle.model.specs.Orders.{facts_of};
ghost use Rattle.sheets.specs.OrderSheets.{OrderSheet};
ghost use Rattle.programs.specs.Reading.{Judged, Says};
ghost use Rattle.programs.specs.Stops.{StopsBy};

use crate::refused::Refused;
use crate::stop::Stop;
use model::{Gate, Order, Output};
use sheets::{Notation, read_order, read_rules};
use std::alloc::Global;
use std::io::ErrorKind;
use table::Cell;

const MAX_NAMES: usize = 1000;

const MAX_GATES: usize = 1000;

const MAX_OUTPUTS: usize = 64;

/// What a rule sheet says: its gates, and its outputs.
#[derive(Debug, Drop)]
pub struct Sheet {
    pub gates: Vec<Gate>,
    pub outputs: Vec<Output>,
}

/// The order that a text is the sheet of.
pub fn order_of(text: &[u8]) -> Result<Order, Refused>
    ensures read { IfOk result (λ order. OrderSheet text.now (Ok (facts_of order))) }
    ensures refused { IfErr result (λ refused. (refused.file.now ≡ codes "order.txt") × OrderSheet text.now (Err refused.fault)) }
{
    let mut order = Order::new();
    read_order(text, &mut order).map_err(Refused::in_order)?;
    Ok(order)
}

/// What a text says as a rule sheet over an order.
pub fn sheet_of(alloc: Global, text: &[u8], order: &Order) -> Result<Sheet, Stop>
    ensures read { IfOk result (Says (facts_of order.now) text.now) }
    ensures stopped { IfErr result (StopsBy (codes "sheet.txt") (λ f. Judged (facts_of order.now) text.now (Err f)) (λ e. error_kind e ≡ ErrorKind.OutOfMemory)) }
{
    let mut names = vec![in alloc; Cell::empty(); MAX_NAMES]?;
    let mut gates = vec![in alloc; Gate::empty(); MAX_GATES]?;
    let mut outputs = vec![in alloc; Output::empty(); MAX_OUTPUTS]?;
    let counts = read_rules(
        Notation::of_text(text),
        text,
        order,
        names.as_mut_slice(),
        gates.as_mut_slice(),
        outputs.as_mut_slice(),
    )
    .map_err(Refused::in_sheet)?;
    gates.truncate(counts.gates);
    outputs.truncate(counts.outputs);
    Ok(Sheet { gates, outputs })
}

#[cfg(test)]
mod tests {
    use super::*;
    use model::{GateKind, Refusal};
    use std::test::Fail;

    #[test]
    fn sheets_are_read(rt: HostRuntime) -> Result<(), Fail> {
        let order = order_of(b"ORD 1\nS lic\nP high\n")?;
        let text = b"GAT 1\nboth = times lic high\nout both\nout lic\n";
        let sheet = sheet_of(rt.alloc(), text, &order)?;
        let times = Gate::binary(GateKind::Times, 0, 1);
        assert_eq!(rt; sheet.gates.as_slice(), [times].as_slice());
        let signals = sheet.outputs.iter().map(|output| output.signal);
        assert!(rt; signals.eq([2, 0]));
        let refused = Refused::in_order(Refusal::BadHeading.at(0));
        assert_eq!(rt; order_of(b"").err(), Some(refused));
        Ok(())
    }
}
