// A sheet laid down: its head, and for each column its body and its entry.
ghost use Rattle.std.specs.Prelude.{◌≡◌, ℕ, ◌*◌, ◌≤◌, length, get_or, take};
ghost use Rattle.std.proofs.lemmas.List.Edits.{sets};
ghost use Rattle.meaning.specs.Limits.{most_bytes, plan_bytes};
ghost use Rattle.meaning.specs.Sheet.{entry_bytes, sheet_bytes};
ghost use Rattle.writer.specs.Orders.{columns_of, Ordered, Laid, Room, ColumnPut};

use crate::orders::Orders;
use crate::plans::{put_bytes, used_plan};
use leaves::put;
use meaning::{MOST_BYTES, Offset, PLAN_BYTES};
use plan_write::write_list;
use stages::copy_list;
use table::entries::{COUNT_IN, PLAN_IN, SIZE_IN, entry_start};
use words::put_word;

// A column's entry, as the edition has it, is put at an offset.
fn put_entry(edition: u8, out: &mut [u8], at: Offset, kind: u8, plan: &[u8], count: u32, size: u32)
    requires { (at.byte ≤ most_bytes) × (length plan.now ≡ plan_bytes) }
    ensures { out.new ≡ sets out.old at.byte
        (entry_bytes edition (record { kind = kind; plan = plan.now; count = count; size = size })) }
{
    let start = at.byte;
    put(out, at, kind);
    put_bytes(
        plan,
        out,
        Offset {
            byte: start + PLAN_IN,
        },
    );
    put_word(
        out,
        Offset {
            byte: start + COUNT_IN,
        },
        count,
    );
    put_word(
        out,
        Offset {
            byte: start + SIZE_IN,
        },
        size,
    );
}

// Puts the column whose list of n numbers stands at the start of work: its body at an offset, and its entry in a slot of the table. Answers where the
// body ends; an entry whose body ends past 65,536 is not put.
pub fn put_column(
    edition: u8,
    kind: u8,
    plan: &[u8],
    work: &mut [u32],
    n: usize,
    out: &mut [u8],
    slot: Offset,
    at: Offset,
) -> Offset
    requires { Room plan.now (length work.old) n slot.byte at.byte }
    ensures { ColumnPut edition (record { kind = kind; plan = plan.now; numbers = take n work.old }) slot.byte at.byte
        out.old out.new result }
{
    let end = write_list(plan, work, n, out, at);
    if MOST_BYTES < end.byte {
        return end;
    }
    let size = end.byte - at.byte;
    put_entry(edition, out, slot, kind, plan, n as u32, size as u32);
    end
}

// Lays a sheet of an edition down from the start of an output on, as far as it lies within. Answers its size; one above 65,536 ends the pass.
pub fn put_sheet(edition: u8, orders: &Orders, work: &mut [u32], out: &mut [u8]) -> usize
    requires { Ordered orders.now × ((k : ℕ) → 7 * get_or orders.now.counts.now k 0 ≤ length work.old) }
    ensures { Laid (sheet_bytes edition (columns_of orders.now)) out.old out.new result }
{
    let n = orders.kinds.len();
    put(out, Offset { byte: 0 }, edition);
    put(out, Offset { byte: 1 }, n as u8);
    let mut at = entry_start(edition, n);
    let mut from: usize = 0;
    for (k, &kind) in orders.kinds.iter().enumerate() {
        let many = orders.counts[k] as usize;
        let first = PLAN_BYTES * k;
        let plan = used_plan(kind, &orders.plans[first..first + PLAN_BYTES]);
        copy_list(&orders.joined[from..from + many], work);
        let slot = entry_start(edition, k);
        at = put_column(edition, kind, &plan, work, many, out, slot, at);
        if MOST_BYTES < at.byte {
            return at.byte;
        }
        from += many;
    }
    at.byte
}
