// Lists the gates and outputs of the rule sheet `sheet.txt` over the facts of `order.txt`, both in the current
// folder, or says why one of them is refused.
#![tactic(auto)]

mod line;

use line::Line;
use model::GateKind;
use programs::{Stop, read_order_file, read_sheet_file, report};
use std::io;

fn list_rules(rt: &HostRuntime) -> Result<(), Stop> {
    let order = read_order_file(rt)?;
    let sheet = read_sheet_file(rt, &order)?;
    for (signal, gate) in (order.len()..).zip(&sheet.gates) {
        if let Ok(kind) = GateKind::try_from(gate.kind) {
            rt.println(Line {
                signal,
                kind,
                gate: *gate,
            })?;
        }
    }
    for output in &sheet.outputs {
        println!(rt; "out {} {}", output.name, output.signal)?;
    }
    Ok(())
}

fn main(rt: HostRuntime) -> io::Result<()> {
    report(&mut io::writer(&rt), list_rules(&rt))
}
