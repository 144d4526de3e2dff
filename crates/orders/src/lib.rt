// The writer of sheets over a lent list of column orders.
// The orders are taken apart into slices of their own, and the writer over plain slices does the work.
#![tactic(auto)]

ghost use Rattle.std.specs.Prelude.{[], ◌∷◌, map};
ghost use Rattle.meaning.specs.Promises.{Writes};
ghost use Rattle.orders.specs.Orders.{order_says};

use meaning::{MOST_COLUMNS, PLAN_BYTES, Refusal};

// A column's order: its kind, its plan (15 zeros mean the default), and how many of the joined numbers are its list.
#[derive(Clone, Copy)]
pub struct Order {
    pub kind: u8,
    pub plan: [u8; PLAN_BYTES],
    pub count: u32,
}

// Writes a sheet of an edition at the start of an output, with work for 7 times the largest list. A refusal leaves the output as it was.
pub fn write(
    edition: u8,
    orders: &[Order],
    joined: &[u32],
    work: &mut [u32],
    out: &mut [u8],
) -> Result<usize, Refusal>
    ensures { Writes edition (map order_says orders.now) joined.now work.old out.old (result, out.new) }
{
    let n = orders.len();
    if MOST_COLUMNS < n {
        return Err(Refusal::BadOrders);
    }
    let mut kinds = [0u8; MOST_COLUMNS];
    let mut plans = [0u8; 240];
    let mut counts = [0u32; MOST_COLUMNS];
    for (i, o) in orders.iter().enumerate() {
        let at = PLAN_BYTES * i;
        kinds[i] = o.kind;
        plans[at..at + PLAN_BYTES].copy_from_slice(&o.plan);
        counts[i] = o.count;
    }
    let stop = PLAN_BYTES * n;
    writer::write(
        edition,
        &kinds[..n],
        &plans[..stop],
        &counts[..n],
        joined,
        work,
        out,
    )
}

// Writes a sheet of two columns, each order a plain parameter.
pub fn write_two(
    edition: u8,
    a: Order,
    b: Order,
    joined: &[u32],
    work: &mut [u32],
    out: &mut [u8],
) -> Result<usize, Refusal>
    ensures { Writes edition (map order_says (a ∷ b ∷ [])) joined.now work.old out.old (result, out.new) }
{
    write(edition, &[a, b], joined, work, out)
}
