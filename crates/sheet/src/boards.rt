// The board of a sheet that passed the check: column 0 holds job numbers, column 1 endings.
ghost use Rattle.std.specs.Prelude.{◌≡◌, length};
ghost use Rattle.meaning.specs.Answer.{passed};
ghost use Rattle.meaning.specs.Operations.{check as check_of};
ghost use Rattle.meaning.specs.Says.{counted_says};
ghost use Rattle.sheet.specs.Board.{Known, ReadAgain, jobs_hold, Countable, with_ending, endings_told};

use crate::columns::read_column;
use meaning::{Fault, RISING, Refusal, Tally};
use stages::differs_in;
use table::entries::{column_count, count_at, kind_at};
use table::entry_at;

// The ending of a job that `timeout` killed.
const KILLED: u32 = 124;

// The ending of a job that never ended, the largest.
const NEVER_ENDED: u32 = 256;

// Reads a column of a checked sheet once more, and tells how many numbers stand in work.
pub fn read_again(sheet: &[u8], column: usize, work: &mut [u32]) -> usize
    requires { Known sheet.now column (length work.old) }
    ensures { ReadAgain sheet.now column work.new result }
{
    let entry = entry_at(sheet, column);
    read_column(sheet, entry, work).unwrap_or(0)
}

// Whether columns 0 and 1 exist with equal counts, and column 0 is kind 1 with no equal neighbours.
pub fn jobs_hold(sheet: &[u8], work: &mut [u32]) -> bool
    requires { check_of sheet.now (length work.old) ≡ passed }
    ensures { result ≡ jobs_hold sheet.now }
{
    let columns = column_count(sheet);
    if columns < 2 {
        return false;
    }
    let jobs = count_at(sheet, 0);
    let endings = count_at(sheet, 1);
    if jobs != endings {
        return false;
    }
    let kind = kind_at(sheet, 0);
    if kind != RISING {
        return false;
    }
    let n = read_again(sheet, 0, work);
    differs_in(&work[..n])
}

// One ending more: 0 is passed, 124 killed, 256 never ended, any other failed.
fn with_ending(mut tally: Tally, ending: u32) -> Tally
    requires { Countable tally ending }
    ensures { result ≡ with_ending tally ending }
{
    if ending == 0 {
        tally.passed += 1;
    } else if ending == KILLED {
        tally.killed += 1;
    } else if ending == NEVER_ENDED {
        tally.unended += 1;
    } else {
        tally.failed += 1;
    }
    tally
}

// The tallies of endings, where each is one.
pub fn tally_in(endings: &[u32]) -> Result<Tally, Fault>
    ensures { counted_says result ≡ endings_told endings.now }
{
    let mut tally = Tally {
        passed: 0,
        failed: 0,
        killed: 0,
        unended: 0,
    };
    for &ending in endings {
        if NEVER_ENDED < ending {
            return Err(Refusal::BadBoard.into());
        }
        tally = with_ending(tally, ending);
    }
    Ok(tally)
}
