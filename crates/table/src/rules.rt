// What a sheet must be: a sheet at all, with a table that holds, and plans that pass.
ghost use Rattle.std.specs.Prelude.{◌≡◌, true, ◌≤◌, length};
ghost use Rattle.meaning.specs.Answer.{in_turn};
ghost use Rattle.meaning.specs.Says.{verdict_says};
ghost use Rattle.meaning.specs.Sheet.{table_size, columns_of, is_edition, is_sheet, table_holds};
ghost use Rattle.table.specs.Rules.{plan_judged};

use crate::entries::{
    body_start, column_count, edition_of, entries_hold, kind_at, plan_at, slot_of,
};
use judge::judge_plan;
use meaning::{FIRST_EDITION, Fault, LAST_EDITION, MOST_BYTES, MOST_COLUMNS};

// Whether there is such an edition: 1 or 2.
pub fn is_edition(edition: u8) -> bool
    ensures { result ≡ is_edition edition }
{
    FIRST_EDITION <= edition && edition <= LAST_EDITION
}

// Whether it is a sheet: from 2 to 65,536 bytes, byte 0 an edition, at most 16 columns.
pub fn is_sheet(sheet: &[u8]) -> bool
    ensures { result ≡ is_sheet sheet.now }
{
    if sheet.len() < 2 || MOST_BYTES < sheet.len() {
        return false;
    }
    is_edition(edition_of(sheet)) && column_count(sheet) <= MOST_COLUMNS
}

// Whether the table is whole, its entries hold, and the body lengths fill the rest.
pub fn table_holds(sheet: &[u8]) -> bool
    requires { is_sheet sheet.now ≡ true }
    ensures { result ≡ table_holds sheet.now }
{
    let columns = column_count(sheet);
    if sheet.len() < slot_of(sheet, columns).byte {
        return false;
    }
    entries_hold(sheet) && body_start(sheet, columns).byte == sheet.len()
}

// Each plan judged in turn: the first that is refused is at fault.
pub fn plans_pass(sheet: &[u8]) -> Result<(), Fault>
    requires { table_size sheet.now ≤ length sheet.now }
    ensures { verdict_says result ≡ in_turn plan_judged 0 (columns_of sheet.now) }
{
    for column in 0..column_count(sheet) {
        let judged = judge_plan(kind_at(sheet, column), plan_at(sheet, column));
        if let Err(refusal) = judged {
            return Err(Fault { refusal, column });
        }
    }
    Ok(())
}
