// A column's lines: its kind, plan, count and body bytes, and its numbers.
ghost use Rattle.std.specs.Prelude.{◌≡◌, true, ◌∷◌, map, ◌*◌, ◌<◌, ◌≤◌, ◌^◌, length};
ghost use Rattle.meaning.specs.Limits.{most_numbers, plan_bytes};
ghost use Rattle.meaning.specs.Plan.{well_formed};
ghost use Rattle.meaning.specs.Sheet.{column_at};
ghost use Rattle.meaning.specs.Texts.{digits, space, counting, kind_text, unfilled, column_line, number_line, column_lines};
ghost use Rattle.table.specs.Entries.{Here};
ghost use Rattle.texts.specs.Listing.{words, named, sized, Listable};
ghost use Rattle.texts.specs.Written.{Puts};

use crate::pieces::Page;
use judge::MOST_STAGES;
use judge::stage::plan_end;
use meaning::{Offset, RISING};
use table::entries::count_at;
use table::entry_at;

// The line of a place and its number.
fn put_number_line(place: usize, x: u32, page: &mut Page)
    requires { (place < most_numbers) × (page.old.at.byte < 2 ^ 61) }
    ensures { Puts (number_line place x) 16 page.old page.new }
{
    page.digits(place);
    page.number(x as usize);
    page.end();
}

// The lines of all places and their numbers.
fn put_numbers(list: &[u32], page: &mut Page)
    requires { (length list.now ≤ most_numbers) × (page.old.at.byte < 2 ^ 60) }
    ensures { Puts (counting number_line 0 list.now) (16 * length list.now) page.old page.new }
{
    for (i, &x) in list.iter().enumerate() {
        put_number_line(i, x, page);
    }
}

// Bytes as numbers, each a further word of a line.
fn put_smalls(bytes: &[u8], page: &mut Page)
    requires { (length bytes.now ≤ plan_bytes) × (page.old.at.byte < 2 ^ 61) }
    ensures { Puts (words (map digits bytes.now)) (21 * length bytes.now) page.old page.new }
{
    for &b in bytes {
        page.number(b as usize);
    }
}

// A plan without its fill.
fn put_plan(plan: &[u8], page: &mut Page)
    requires { (well_formed plan.now ≡ true) × (page.old.at.byte < 2 ^ 61) }
    ensures { Puts (words (map digits (unfilled plan.now))) 315 page.old page.new }
{
    let end = plan_end(plan, Offset { byte: 0 }, MOST_STAGES);
    let size = end.byte;
    put_smalls(&plan[..size], page);
}

// A kind's word.
fn put_kind(kind: u8, page: &mut Page)
    requires { page.old.at.byte < 2 ^ 61 }
    ensures { Puts (space ∷ kind_text kind) 7 page.old page.new }
{
    if kind == RISING {
        page.next(b"rising");
    } else {
        page.next(b"any");
    }
}

// A column's line up to its plan.
fn put_named(column: usize, kind: u8, page: &mut Page)
    requires { page.old.at.byte < 2 ^ 60 }
    ensures { Puts (named column kind) 39 page.old page.new }
{
    page.word(b"column");
    page.number(column);
    put_kind(kind, page);
    page.next(b"plan");
}

// A column's line after its plan.
fn put_sized(count: usize, size: usize, page: &mut Page)
    requires { page.old.at.byte < 2 ^ 61 }
    ensures { Puts (sized count size) 55 page.old page.new }
{
    page.next(b"count");
    page.number(count);
    page.next(b"bytes");
    page.number(size);
    page.end();
}

// A column's line.
fn put_head(sheet: &[u8], column: usize, page: &mut Page)
    requires { Here sheet.now column × (page.old.at.byte < 2 ^ 60) }
    ensures { Puts (column_line column (column_at sheet.now column)) 409 page.old page.new }
{
    let entry = entry_at(sheet, column);
    put_named(column, entry.kind, page);
    put_plan(entry.plan_of(sheet), page);
    put_sized(entry.count, entry.size, page);
}

// A column's lines. A column of a sheet that passed is read whole.
pub fn put_column(sheet: &[u8], column: usize, work: &mut [u32], list: &mut [u32], page: &mut Page)
    requires { Listable sheet.now column (length work.old) (length list.old) × (page.old.at.byte < 2 ^ 59) }
    ensures { Puts (column_lines column (column_at sheet.now column)) 16793 page.old page.new }
{
    let count = count_at(sheet, column);
    put_head(sheet, column, page);
    let _ = sheet::read(sheet, column, work, list);
    put_numbers(&list[..count], page);
}
