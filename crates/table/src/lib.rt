// The sheet's table: whether a sheet is sound, its columns' entries, and a column's body fetched.
#![tactic(auto)]

ghost use Rattle.std.specs.Prelude.{◌≡◌, ◌+◌, ◌≤◌, length};
ghost use Rattle.meaning.specs.Answer.{passed};
ghost use Rattle.meaning.specs.Limits.{plan_bytes};
ghost use Rattle.meaning.specs.Places.{part};
ghost use Rattle.meaning.specs.Promises.{Fetches};
ghost use Rattle.meaning.specs.Says.{held, verdict_says};
ghost use Rattle.meaning.specs.Sheet.{sound as sound_of, largest_count};
ghost use Rattle.table.specs.Entries.{Here, EntryIs, ColumnIs};

use crate::entries::{body_start, column_count, count_at, kind_at, plan_start, size_at};
use crate::rules::{is_sheet, plans_pass, table_holds};
use meaning::{Fault, Offset, PLAN_BYTES, Refusal};

pub mod entries;
pub mod rules;

// A column by its entry: its kind, where its 15 plan bytes begin, its count, its body's length and where its body begins.
#[derive(Clone, Copy)]
pub struct Entry {
    pub kind: u8,
    pub plan: Offset,
    pub count: usize,
    pub size: usize,
    pub body: Offset,
}

impl Entry {
    // The column's plan, a part of its sheet.
    pub fn plan_of<'a>(&self, sheet: &'a [u8]) -> &'a [u8]
        requires { self.now.plan.byte + plan_bytes ≤ length sheet.now }
        ensures { result.now ≡ part sheet.now self.now.plan.byte plan_bytes }
    {
        let start = self.plan.byte;
        &sheet[start..start + PLAN_BYTES]
    }

    // Its body, a part of its sheet.
    pub fn body_of<'a>(&self, sheet: &'a [u8]) -> &'a [u8]
        requires { self.now.body.byte + self.now.size ≤ length sheet.now }
        ensures { result.now ≡ part sheet.now self.now.body.byte self.now.size }
    {
        let start = self.body.byte;
        &sheet[start..start + self.size]
    }
}

// What every operation on a sheet asks first: 1; 2; each plan in turn, 3 before 4. A refusal names the column at fault.
pub fn sound(sheet: &[u8]) -> Result<(), Fault>
    ensures { verdict_says result ≡ sound_of sheet.now }
{
    if !is_sheet(sheet) {
        return Err(Refusal::NoSheet.into());
    }
    if !table_holds(sheet) {
        return Err(Refusal::BadTable.into());
    }
    plans_pass(sheet)
}

// A column's entry in a sound sheet.
pub fn entry_at(sheet: &[u8], column: usize) -> Entry
    requires { Here sheet.now column }
    ensures { EntryIs sheet.now column result }
{
    Entry {
        kind: kind_at(sheet, column),
        plan: plan_start(sheet, column),
        count: count_at(sheet, column),
        size: size_at(sheet, column),
        body: body_start(sheet, column),
    }
}

// The largest count of a sound sheet's columns, 0 where it has none.
pub fn largest_count(sheet: &[u8]) -> usize
    requires { sound_of sheet.now ≡ passed }
    ensures { result ≡ largest_count sheet.now }
{
    let mut most: usize = 0;
    for k in 0..column_count(sheet) {
        most = most.max(count_at(sheet, k));
    }
    most
}

// A column of a sheet, as every operation on one asks for it: 1; 2; the plans; 5.
pub fn column_at(sheet: &[u8], column: usize) -> Result<Entry, Refusal>
    ensures { ColumnIs sheet.now column result }
{
    sound(sheet)?;
    if column_count(sheet) <= column {
        return Err(Refusal::NoColumn);
    }
    Ok(entry_at(sheet, column))
}

// A column's body itself, a part of the lent sheet.
pub fn fetch<'a>(sheet: &'a [u8], column: usize) -> Result<&'a [u8], Refusal>
    ensures { Fetches sheet.now column (held result) }
{
    let entry = column_at(sheet, column)?;
    Ok(entry.body_of(sheet))
}
