// Sheets written: orders as slices of kinds, plans and counts, and one slice with all lists joined.
// The pass that lays a sheet down runs twice: over a byte of its own, which tells the size, and over the output once that is known to fit.
#![tactic(auto)]

ghost use Rattle.meaning.specs.Promises.{WritesApart};

use crate::orders::Orders;
use crate::sheets::put_sheet;
use meaning::{MOST_BYTES, Refusal};
use table::rules::is_edition;

mod orders;
mod plans;
mod sheets;

// Writes a sheet of an edition at the start of an output, with work for 7 times the largest list. A refusal leaves the output as it was.
pub fn write(
    edition: u8,
    kinds: &[u8],
    plans: &[u8],
    counts: &[u32],
    joined: &[u32],
    work: &mut [u32],
    out: &mut [u8],
) -> Result<usize, Refusal>
    ensures { WritesApart edition kinds.now plans.now counts.now joined.now work.old
        out.old (result, out.new) }
{
    let orders = Orders {
        kinds,
        plans,
        counts,
        joined,
    };
    if !is_edition(edition) {
        return Err(Refusal::BadOrders);
    }
    if !orders.hold() {
        return Err(Refusal::BadOrders);
    }
    orders.judge()?;
    if !orders.rise(edition) {
        return Err(Refusal::Falls);
    }
    if work.len() < 7 * orders.largest() {
        return Err(Refusal::ShortWork);
    }
    let mut spare = [0u8; 1];
    let size = put_sheet(edition, &orders, work, &mut spare);
    if MOST_BYTES < size {
        return Err(Refusal::NoRoom);
    }
    if out.len() < size {
        return Err(Refusal::NoRoom);
    }
    Ok(put_sheet(edition, &orders, work, out))
}
