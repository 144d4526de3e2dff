// The C interface, as include/pelluvion.h declares it. Each function calls the proved operation, answers with the refusal's number, 0 where
// it was accepted, and tells the rest through its last pointers. kept: numbers and pointers are the C interface.
#![tactic(auto)]

ghost use Rattle.std.specs.Prelude.{◌≡◌, length};
ghost use Rattle.meaning.specs.Answer.{number};
ghost use Rattle.meaning.specs.Operations.{check as check_of, count_board, look_sheet, read_sheet, write_apart};
ghost use Rattle.meaning.specs.Plan.{judge as judge_of, worst_size};
ghost use Rattle.meaning.specs.Rank.{rank as rank_of, select as select_of};
ghost use Rattle.meaning.specs.Says.{says};
ghost use Rattle.capi.specs.Told.{Tells, TellsList, Blames, Tallies, Fetches};

use bits::{rank, select};
use judge::{judge, worst_size};
use meaning::{Bit, Place, Refusal};
use sheet::{board, check, lookup, read};
use table::column_at;
use writer::write;

// Nothing was refused.
const ACCEPTED: u32 = 0;

// What was given is told, or 0 beside the refusal's number.
fn tell(answer: Result<usize, Refusal>, told: &mut usize) -> u32
    ensures { Tells (says answer) result told.new }
{
    match answer {
        Ok(n) => {
            *told = n;
            ACCEPTED
        }
        Err(e) => {
            *told = 0;
            u32::from(e)
        }
    }
}

// Judges a plan for a kind.
#[unsafe(no_mangle)]
pub extern "C" fn pelluvion_judge(kind: u8, plan: &[u8]) -> u32
    ensures { result ≡ number (judge_of kind plan.now) }
{
    match judge(kind, plan) {
        Ok(()) => ACCEPTED,
        Err(e) => u32::from(e),
    }
}

// The most bytes that a plan takes for n numbers.
#[unsafe(no_mangle)]
pub extern "C" fn pelluvion_worst(plan: &[u8], n: usize, size: &mut usize) -> u32
    ensures { Tells (worst_size plan.now n) result size.new }
{
    tell(worst_size(plan, n), size)
}

// Writes a sheet of an edition, by orders taken apart, at the start of the output.
#[unsafe(no_mangle)]
pub extern "C" fn pelluvion_write(
    edition: u8,
    kinds: &[u8],
    plans: &[u8],
    counts: &[u32],
    joined: &[u32],
    work: &mut [u32],
    out: &mut [u8],
    size: &mut usize,
) -> u32
    ensures { TellsList (write_apart edition kinds.now plans.now counts.now joined.now
        (length work.old) (length out.old)) result size.new out.old out.new }
{
    tell(
        write(edition, kinds, plans, counts, joined, work, out),
        size,
    )
}

// Checks a whole sheet, and names the column at fault.
#[unsafe(no_mangle)]
pub extern "C" fn pelluvion_check(sheet: &[u8], work: &mut [u32], column: &mut usize) -> u32
    ensures { Blames (check_of sheet.now (length work.old)) result column.new }
{
    match check(sheet, work) {
        Ok(()) => {
            *column = 0;
            ACCEPTED
        }
        Err(fault) => {
            *column = fault.column;
            u32::from(fault.refusal)
        }
    }
}

// Reads a column's list to the start of the output.
#[unsafe(no_mangle)]
pub extern "C" fn pelluvion_read(
    sheet: &[u8],
    column: usize,
    work: &mut [u32],
    out: &mut [u32],
    count: &mut usize,
) -> u32
    ensures { TellsList (read_sheet sheet.now column (length work.old) (length out.old)) result count.new
        out.old out.new }
{
    tell(read(sheet, column, work, out), count)
}

// Looks up the number at a place of a column.
#[unsafe(no_mangle)]
pub extern "C" fn pelluvion_lookup(
    sheet: &[u8],
    column: usize,
    place: usize,
    number: &mut u32,
) -> u32
    ensures { Tells (look_sheet sheet.now column place) result number.new }
{
    match lookup(sheet, column, Place { number: place }) {
        Ok(x) => {
            *number = x;
            ACCEPTED
        }
        Err(e) => {
            *number = 0;
            u32::from(e)
        }
    }
}

// Where a column's body stands in the sheet.
#[unsafe(no_mangle)]
pub extern "C" fn pelluvion_fetch(
    sheet: &[u8],
    column: usize,
    offset: &mut usize,
    length: &mut usize,
) -> u32
    ensures { Fetches sheet.now column result offset.new length.new }
{
    match column_at(sheet, column) {
        Ok(entry) => {
            let body = entry.body;
            *offset = body.byte;
            *length = entry.size;
            ACCEPTED
        }
        Err(e) => {
            *offset = 0;
            *length = 0;
            u32::from(e)
        }
    }
}

// Counts the endings of a board, and names the column at fault.
#[unsafe(no_mangle)]
pub extern "C" fn pelluvion_board(
    sheet: &[u8],
    work: &mut [u32],
    column: &mut usize,
    passed: &mut usize,
    failed: &mut usize,
    killed: &mut usize,
    unended: &mut usize,
) -> u32
    ensures { Tallies (count_board sheet.now (length work.old)) result column.new
        (record { passed = passed.new; failed = failed.new; killed = killed.new; unended = unended.new }) }
{
    match board(sheet, work) {
        Ok(tally) => {
            *column = 0;
            *passed = tally.passed;
            *failed = tally.failed;
            *killed = tally.killed;
            *unended = tally.unended;
            ACCEPTED
        }
        Err(f) => {
            *column = f.column;
            *passed = 0;
            *failed = 0;
            *killed = 0;
            *unended = 0;
            u32::from(f.refusal)
        }
    }
}

// How many ones stand before a bit of lent bytes, lowest bit of each byte first.
#[unsafe(no_mangle)]
pub extern "C" fn pelluvion_rank(bytes: &[u8], bit: usize, ones: &mut usize) -> u32
    ensures { Tells (rank_of bytes.now bit) result ones.new }
{
    tell(rank(bytes, Bit { index: bit }), ones)
}

// The bit of the k-th one of lent bytes, counted from 0.
#[unsafe(no_mangle)]
pub extern "C" fn pelluvion_select(bytes: &[u8], k: usize, bit: &mut usize) -> u32
    ensures { Tells (select_of bytes.now k) result bit.new }
{
    tell(select(bytes, k).map(|found| found.index), bit)
}
