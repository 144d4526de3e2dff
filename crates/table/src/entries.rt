// The table's entries: where they stand, what they say, and where bodies begin.
ghost use Rattle.std.specs.Prelude.{◌≡◌, ◌+◌, ◌<◌, ◌≤◌, ◌^◌, length};
ghost use Rattle.meaning.specs.Bytes.{word_at};
ghost use Rattle.meaning.specs.Limits.{number_limit, plan_bytes};
ghost use Rattle.meaning.specs.Lists.{all};
ghost use Rattle.meaning.specs.Sheet.{entry_size, edition_of, column_count, table_size, columns_of, column_at};
ghost use Rattle.table.specs.Offsets.{entry_offset, slot_of, plan_offset, body_offset, Within};
ghost use Rattle.table.specs.Rules.{entry_holds};

use meaning::{ENTRY_SIZE, HEAD_SIZE, MOST_NUMBERS, Offset, PLAN_BYTES, RISING};
use words::word_at;

// Where a column's plan stands in its entry: where the meaning's `plan_in` says (specs/Sheet.antt of the crate `meaning`).
pub const PLAN_IN: usize = 1;

// Where its count stands: where `count_in` says.
pub const COUNT_IN: usize = 16;

// Where its body's length stands: where `size_in` says.
pub const SIZE_IN: usize = 20;

// The edition.
pub fn edition_of(sheet: &[u8]) -> u8
    requires { 2 ≤ length sheet.now }
    ensures { result ≡ edition_of sheet.now }
{
    sheet[0]
}

// The number of columns.
pub fn column_count(sheet: &[u8]) -> usize
    requires { 2 ≤ length sheet.now }
    ensures { (result ≡ column_count sheet.now) × (result < 256) }
{
    usize::from(sheet[1])
}

// How many bytes an entry takes: as many in either edition.
fn entry_size(edition: u8) -> usize
    ensures { result ≡ entry_size edition }
{
    ENTRY_SIZE
}

// Where a column's entry begins; that of the column past the last is where the table ends.
pub fn entry_start(edition: u8, column: usize) -> Offset
    requires { entry_offset edition column < 2 ^ 64 }
    ensures { result.byte ≡ entry_offset edition column }
{
    let entries = entry_size(edition) * column;
    Offset {
        byte: HEAD_SIZE + entries,
    }
}

// The same in a sheet, by its own edition.
pub fn slot_of(sheet: &[u8], column: usize) -> Offset
    requires { (2 ≤ length sheet.now) × (slot_of sheet.now column < 2 ^ 64) }
    ensures { result.byte ≡ slot_of sheet.now column }
{
    entry_start(edition_of(sheet), column)
}

// Where a column's plan begins, which lies within the sheet.
pub fn plan_start(sheet: &[u8], column: usize) -> Offset
    requires { Within sheet.now column }
    ensures { (result.byte ≡ plan_offset sheet.now column) × (result.byte + plan_bytes ≤ length sheet.now) }
{
    let start = slot_of(sheet, column);
    Offset {
        byte: start.byte + PLAN_IN,
    }
}

// A column's plan.
pub(crate) fn plan_at(sheet: &[u8], column: usize) -> &[u8]
    requires { Within sheet.now column }
    ensures { result.now ≡ (column_at sheet.now column).plan }
{
    let start = plan_start(sheet, column).byte;
    &sheet[start..start + PLAN_BYTES]
}

// A column's kind.
pub fn kind_at(sheet: &[u8], column: usize) -> u8
    requires { Within sheet.now column }
    ensures { result ≡ (column_at sheet.now column).kind }
{
    sheet[slot_of(sheet, column).byte]
}

// A number in a column's entry, by where in the entry it stands.
fn number_in(sheet: &[u8], column: usize, place: usize) -> usize
    requires { Within sheet.now column × (place ≤ 20) }
    ensures { (result ≡ word_at sheet.now (slot_of sheet.now column + place)) × (result < number_limit) }
{
    let start = slot_of(sheet, column);
    let byte = start.byte + place;
    word_at(sheet, Offset { byte }) as usize
}

// A column's count.
pub fn count_at(sheet: &[u8], column: usize) -> usize
    requires { Within sheet.now column }
    ensures { result ≡ (column_at sheet.now column).count }
{
    number_in(sheet, column, COUNT_IN)
}

// The length of a column's body.
pub fn size_at(sheet: &[u8], column: usize) -> usize
    requires { Within sheet.now column }
    ensures { (result ≡ (column_at sheet.now column).size) × (result < number_limit) }
{
    number_in(sheet, column, SIZE_IN)
}

// Where a column's body begins: after the table and the bodies before it. That of the column past the last is where the bodies end.
pub fn body_start(sheet: &[u8], column: usize) -> Offset
    requires { (table_size sheet.now ≤ length sheet.now) × (column ≤ column_count sheet.now) }
    ensures { result.byte ≡ body_offset sheet.now column }
{
    let columns = column_count(sheet);
    let mut at = slot_of(sheet, columns);
    for k in 0..column {
        at.byte += size_at(sheet, k);
    }
    at
}

// Whether a column's kind is at most 1 and its count at most 1,024.
fn entry_holds(sheet: &[u8], column: usize) -> bool
    requires { Within sheet.now column }
    ensures { result ≡ entry_holds (column_at sheet.now column) }
{
    kind_at(sheet, column) <= RISING && count_at(sheet, column) <= MOST_NUMBERS
}

// Whether every entry holds.
pub fn entries_hold(sheet: &[u8]) -> bool
    requires { table_size sheet.now ≤ length sheet.now }
    ensures { result ≡ all entry_holds (columns_of sheet.now) }
{
    (0..column_count(sheet)).all(|k| entry_holds(sheet, k))
}
