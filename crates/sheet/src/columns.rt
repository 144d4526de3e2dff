// A column's numbers by its entry, read into work.
ghost use Rattle.meaning.specs.Places.{Got};
ghost use Rattle.meaning.specs.Sheet.{read_column};
ghost use Rattle.sheet.specs.Opened.{column_of, Readable};

use meaning::Refusal;
use plan_read::read_list;
use stages::of_kind;
use table::Entry;
use table::entries::edition_of;

// Reads a column into work from its first place on: all of its plan is applied, and its list must be of the declared kind, by the sheet's edition.
pub fn read_column(sheet: &[u8], entry: Entry, work: &mut [u32]) -> Result<usize, Refusal>
    requires { Readable sheet.now work.old entry }
    ensures { Got (read_column (column_of sheet.now entry)) 0 work.old work.new result }
{
    let plan = entry.plan_of(sheet);
    let body = entry.body_of(sheet);
    let n = read_list(plan, body, entry.count, work)?;
    if of_kind(edition_of(sheet), entry.kind, &work[..n]) {
        return Ok(n);
    }
    Err(Refusal::Broken)
}
