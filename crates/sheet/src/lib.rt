// The operations over a lent sheet: check it, read a column, look one number up, count the board.
#![tactic(auto)]

ghost use Rattle.std.specs.Prelude.{◌≡◌, length};
ghost use Rattle.meaning.specs.Answer.{in_turn};
ghost use Rattle.meaning.specs.Promises.{Checks, Reads, Looks, Counts};
ghost use Rattle.meaning.specs.Says.{verdict_says};
ghost use Rattle.meaning.specs.Sheet.{columns_of, check_column};
ghost use Rattle.sheet.specs.Opened.{Ready};

use crate::boards::{jobs_hold, read_again, tally_in};
use crate::columns::read_column;
use meaning::{Fault, Place, Refusal, Tally};
use plan_look::lookup_list;
use stages::copy_list;
use table::entries::column_count;
use table::{column_at, entry_at, largest_count, sound};

mod boards;
mod columns;

// Reads all columns in turn: the first that is refused is at fault.
fn check_columns(sheet: &[u8], work: &mut [u32]) -> Result<(), Fault>
    requires { Ready sheet.now (length work.old) }
    ensures { verdict_says result ≡ in_turn check_column 0 (columns_of sheet.now) }
{
    for column in 0..column_count(sheet) {
        let entry = entry_at(sheet, column);
        if let Err(refusal) = read_column(sheet, entry, work) {
            return Err(Fault { refusal, column });
        }
    }
    Ok(())
}

// Checks a sheet: 1; 2; each plan in turn; 8; each body in turn. A refusal names the column at fault.
pub fn check(sheet: &[u8], work: &mut [u32]) -> Result<(), Fault>
    ensures { Checks sheet.now work.old result }
{
    sound(sheet)?;
    let most = largest_count(sheet);
    if work.len() < 8 * most {
        return Err(Refusal::ShortWork.into());
    }
    check_columns(sheet, work)
}

// Reads a column: into work, and then, where all of it is right, into the output.
pub fn read(
    sheet: &[u8],
    column: usize,
    work: &mut [u32],
    out: &mut [u32],
) -> Result<usize, Refusal>
    ensures { Reads sheet.now column work.old out.old (result, out.new) }
{
    let entry = column_at(sheet, column)?;
    if work.len() < 7 * entry.count {
        return Err(Refusal::ShortWork);
    }
    if out.len() < entry.count {
        return Err(Refusal::NoRoom);
    }
    let n = read_column(sheet, entry, work)?;
    copy_list(&work[..n], out);
    Ok(n)
}

// Looks one number up: only what the plan needs for that place is read.
pub fn lookup(sheet: &[u8], column: usize, place: Place) -> Result<u32, Refusal>
    ensures { Looks sheet.now column place.number result }
{
    let found = column_at(sheet, column)?;
    if found.count <= place.number {
        return Err(Refusal::NoPlace);
    }
    lookup_list(
        found.plan_of(sheet),
        found.body_of(sheet),
        found.count,
        place,
    )
}

// Counts the board: the check, then the board's rules, 12. Column 0 holds job numbers, column 1 endings.
pub fn board(sheet: &[u8], work: &mut [u32]) -> Result<Tally, Fault>
    ensures { Counts sheet.now work.old result }
{
    check(sheet, work)?;
    if !jobs_hold(sheet, work) {
        return Err(Refusal::BadBoard.into());
    }
    let n = read_again(sheet, 1, work);
    tally_in(&work[..n])
}
