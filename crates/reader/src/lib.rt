// A reader stands on one column of a lent sheet, and each call gives the next number.
#![tactic(auto)]

ghost use Rattle.std.specs.Prelude.{◌≡◌};
ghost use Rattle.meaning.specs.Answer.{list, number};
ghost use Rattle.meaning.specs.Operations.{open_reader, call};
ghost use Rattle.meaning.specs.Says.{says};
ghost use Rattle.reader.specs.Steps.{standing, refusal_told, Opens, Steps};

use meaning::{MOST_NUMBERS, Place, Refusal};
use sheet::lookup;
use table::column_at;

// The part of the sheet that it reads, the column, and the place of the next call.
#[derive(Drop)]
pub struct Reader<'a> {
    pub sheet: &'a [u8],
    pub column: usize,
    pub place: Place,
}

// The answers of the first three calls.
#[derive(Clone, Copy)]
pub struct FirstThree {
    pub first: Result<u32, Refusal>,
    pub second: Result<u32, Refusal>,
    pub third: Result<u32, Refusal>,
}

// The part that a reader is opened over: the sheet, or an empty part of it where opening refuses, and that refusal.
fn part_of<'a>(sheet: &'a [u8], column: usize) -> (&'a [u8], Option<Refusal>)
    ensures { (result.0.now ≡ list (open_reader sheet.now column)) × (refusal_told result.1 ≡ number (open_reader sheet.now column)) }
{
    match column_at(sheet, column) {
        Ok(_) => (sheet, None),
        Err(e) => (&sheet[0..0], Some(e)),
    }
}

// Opens a reader: refused by 1 to 5, it stands on an empty part, and every call answers 1; the refusal is told beside it.
pub fn open<'a>(sheet: &'a [u8], column: usize) -> (Reader<'a>, Option<Refusal>)
    ensures { Opens sheet.now column (standing result.0, result.1) }
{
    let (part, refusal) = part_of(sheet, column);
    let reader = Reader {
        sheet: part,
        column,
        place: Place { number: 0 },
    };
    (reader, refusal)
}

// One call: it answers as a lookup at the reader's place, and moves on unless it is refused.
pub fn step<'s, 'a>(r: &'s mut Reader<'a>) -> Result<u32, Refusal>
    ensures { Steps r.old (result, r.new) }
{
    let answer = lookup(r.sheet, r.column, r.place);
    if answer.is_ok() {
        let next = r.place.number + 1;
        r.place = Place { number: next };
    }
    answer
}

// The answers of the first three calls of a reader opened over a column.
pub fn first_three(sheet: &[u8], column: usize) -> FirstThree
    ensures { (says result.first ≡ call sheet.now column 0) × (says result.second ≡ call sheet.now column 1) ×
        (says result.third ≡ call sheet.now column 2) }
{
    let (mut r, _) = open(sheet, column);
    let first = step(&mut r);
    let second = step(&mut r);
    let third = step(&mut r);
    FirstThree {
        first,
        second,
        third,
    }
}

// The answer of call k of a reader opened over a column: the reader makes the calls before it, and then that one.
pub fn nth_call(sheet: &[u8], column: usize, k: usize) -> Result<u32, Refusal>
    ensures { says result ≡ call sheet.now column k }
{
    let (mut r, _) = open(sheet, column);
    // No more calls than a column can have numbers: by then one was refused, and each later call gives that refusal again.
    for i in 0..k.min(MOST_NUMBERS) {
        let _ = step(&mut r);
    }
    step(&mut r)
}
