// The text of the two programs, written into a lent output.
#![tactic(auto)]

ghost use Rattle.std.specs.Prelude.{◌≡◌, [], ◌<◌, ◌^◌, length};
ghost use Rattle.meaning.specs.Answer.{blamed};
ghost use Rattle.meaning.specs.Limits.{most_numbers};
ghost use Rattle.meaning.specs.Says.{refusal_number};
ghost use Rattle.meaning.specs.Sheet.{columns_of};
ghost use Rattle.meaning.specs.Texts.{all_work, refused_or, counting, column_lines, listing_lines, listing_text, board_lines, board_text};
ghost use Rattle.texts.specs.Listing.{Passing};
ghost use Rattle.texts.specs.Written.{Puts, Written};

use crate::columns::put_column;
use crate::pieces::Page;
use meaning::{Fault, Offset, Tally};
use table::entries::column_count;

mod columns;
mod pieces;

// A refusal's line.
fn put_refused(f: Fault, page: &mut Page)
    requires { page.old.at.byte < 2 ^ 61 }
    ensures { Puts (refused_or (blamed (refusal_number f.refusal) f.column) []) 64 page.old page.new }
{
    page.word(b"refused");
    page.number(u8::from(f.refusal) as usize);
    page.next(b"column");
    page.number(f.column);
    page.end();
}

// The board's lines.
fn put_tally(t: Tally, page: &mut Page)
    requires { page.old.at.byte < 2 ^ 61 }
    ensures { Puts (board_lines t) 128 page.old page.new }
{
    page.line(b"passed", t.passed);
    page.line(b"failed", t.failed);
    page.line(b"killed", t.killed);
    page.line(b"unended", t.unended);
}

// The lines of all columns, each of at most 1,024 numbers.
fn put_columns(sheet: &[u8], work: &mut [u32], list: &mut [u32], page: &mut Page)
    requires { Passing sheet.now (length work.old) (length list.old) × (page.old.at.byte < 2 ^ 58) }
    ensures { Puts (counting column_lines 0 (columns_of sheet.now)) 268688 page.old page.new }
{
    let columns = column_count(sheet);
    for k in 0..columns {
        put_column(sheet, k, work, list, page);
    }
}

// The lines of a sheet that passes.
fn put_sheet(sheet: &[u8], work: &mut [u32], list: &mut [u32], page: &mut Page)
    requires { Passing sheet.now (length work.old) (length list.old) × (page.old.at.byte < 2 ^ 57) }
    ensures { Puts (listing_lines (columns_of sheet.now)) 270000 page.old page.new }
{
    let columns = column_count(sheet);
    page.line(b"columns", columns);
    put_columns(sheet, work, list, page);
    page.word(b"end");
    page.end();
}

// The listing's text.
pub fn listing(sheet: &[u8], work: &mut [u32], list: &mut [u32], out: &mut [u8]) -> usize
    requires { (length work.old ≡ all_work) × (length list.old ≡ most_numbers) }
    ensures { Written (listing_text sheet.now) 270000 out.old out.new result }
{
    let start = Offset { byte: 0 };
    let mut page = Page { out, at: start };
    match sheet::check(sheet, work) {
        Ok(()) => put_sheet(sheet, work, list, &mut page),
        Err(f) => put_refused(f, &mut page),
    }
    page.at.byte
}

// The board's text.
pub fn board(sheet: &[u8], work: &mut [u32], out: &mut [u8]) -> usize
    requires { length work.old ≡ all_work }
    ensures { Written (board_text sheet.now) 128 out.old out.new result }
{
    let start = Offset { byte: 0 };
    let mut page = Page { out, at: start };
    match sheet::board(sheet, work) {
        Ok(t) => put_tally(t, &mut page),
        Err(f) => put_refused(f, &mut page),
    }
    page.at.byte
}
