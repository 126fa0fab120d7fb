ghost use Rattle.std.specs.Prelude.{◌≡◌, ◌≢◌, ℕ, List, codes, Ok, Err, IfOk, IfErr};
ghost use Rattle.std.specs.IoError.{error_kind};
ghost use Rattle.model.specs.Orders.{facts_of};
ghost use Rattle.sheets.specs.OrderSheets.{OrderSheet};
ghost use Rattle.programs.specs.Reading.{Judged, Says};
ghost use Rattle.programs.specs.Stops.{StopsBy};

use crate::files::text_of;
use crate::refused::{ORDER, SHEET};
use crate::sheet::{Sheet, order_of, sheet_of};
use crate::stop::Stop;
use model::Order;
use std::io::ErrorKind;
use std::rt::Files;

// The programs' runs show that both succeed: `gates` and `consignment` read both files, `facts` the order.

/// Reads the order sheet `order.txt`.
pub fn read_order_file(rt: &(impl Files + AllocGlobal)) -> Result<Order, Stop>
    ensures read { IfOk result (λ order. (text : List ℕ) × OrderSheet text (Ok (facts_of order))) }
    ensures stopped { IfErr result (StopsBy (codes "order.txt") (λ f. (text : List ℕ) × OrderSheet text (Err f)) (λ e. error_kind e ≢ ErrorKind.NotFound)) }
{
    let text = text_of(rt, ORDER)?;
    Ok(order_of(text.as_slice())?)
}

/// Reads the rule sheet `sheet.txt` over an order.
pub fn read_sheet_file(rt: &(impl Files + AllocGlobal), order: &Order) -> Result<Sheet, Stop>
    ensures read { IfOk result (λ sheet. (text : List ℕ) × Says (facts_of order.now) text sheet) }
    ensures stopped { IfErr result (StopsBy (codes "sheet.txt") (λ f. (text : List ℕ) × Judged (facts_of order.now) text (Err f)) (λ e. error_kind e ≢ ErrorKind.NotFound)) }
{
    let text = text_of(rt, SHEET)?;
    sheet_of(rt.alloc(), text.as_slice(), order)
}
