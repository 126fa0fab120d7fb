// Says what the rule sheet `sheet.txt` gives for one consignment, in yes/no: `order.txt` names the facts, and
// `facts.txt` has a digit for each, top first. All three stand in the current folder.
#![tactic(auto)]

use arithmetic::{Net, Signals, YesNo};
use programs::{Refused, Stop, read_order_file, read_sheet_file, report, text_of};
use sheets::read_assignment;
use std::io;

fn judge(rt: &HostRuntime) -> Result<(), Stop> {
    let order = read_order_file(rt)?;
    let sheet = read_sheet_file(rt, &order)?;
    let facts = order.len();
    let net = Net {
        facts,
        gates: sheet.gates.as_slice(),
        outputs: sheet.outputs.as_slice(),
    };
    net.check::<YesNo>().map_err(Refused::in_sheet)?;
    let text = text_of(rt, "facts.txt")?;
    let Some(assignment) = read_assignment(text.as_slice(), facts) else {
        println!(rt; "facts.txt is not one line of {facts} digits 0 or 1")?;
        return Ok(());
    };
    let mut values = vec![in rt.alloc(); 0; net.gates.len()]?;
    net.evaluate::<YesNo>(assignment, values.as_mut_slice())
        .map_err(Refused::in_sheet)?;
    let signals = Signals {
        facts,
        assignment,
        values: values.as_slice(),
    };
    for output in net.outputs {
        if let Some(value) = signals.output_value::<YesNo>(output) {
            println!(rt; "{} {value}", output.name)?;
        }
    }
    Ok(())
}

fn main(rt: HostRuntime) -> io::Result<()> {
    report(&mut io::writer(&rt), judge(&rt))
}
