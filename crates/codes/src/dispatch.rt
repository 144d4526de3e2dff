// What is done with a code, by its number in document 01. kept as a number and a choice: every number is answered (`code_of`), 7's arm by all others too,
// and over a trait each walk would make this choice.
ghost use Rattle.std.specs.Prelude.{◌≡◌, ◌≤◌, length};
ghost use Rattle.meaning.specs.Codes.{code_of};
ghost use Rattle.meaning.specs.Limits.{most_bytes, unit_places};
ghost use Rattle.meaning.specs.Places.{Source, Target, Wrote, UnitIs, Took, Spare};
ghost use Rattle.meaning.specs.Says.{says};
ghost use Rattle.codes.specs.Started.{is_direct};

use elias::Form::{Delta, Gamma};
use groups::Form::{Batches, Fours, Stream};
use meaning::{Offset, Place, Position, Refusal, Taken, UnitRead};

// Writes a list to an output from an offset on. Answers where its bytes end.
pub fn write_code(code: u8, list: &[u32], out: &mut [u8], at: Offset) -> Offset
    requires { Source list.now at.byte }
    ensures { Wrote ((code_of code).write list.now) at.byte out.old out.new result }
{
    match code {
        1 => vbyte::write(list, out, at),
        2 => groups::write(Fours, list, out, at),
        3 => g8iu::write(list, out, at),
        4 => groups::write(Stream, list, out, at),
        5 => elias::write(Gamma, list, out, at),
        6 => elias::write(Delta, list, out, at),
        8 => direct::write(list, out, at),
        _ => groups::write(Batches, list, out, at),
    }
}

// Reads the unit at a position, where `left` numbers are still to come.
pub fn unit_at(code: u8, body: &[u8], left: usize, at: Position) -> Result<UnitRead, Refusal>
    requires { length body.now ≤ most_bytes }
    ensures { UnitIs ((code_of code).unit body.now left at) result }
{
    match code {
        1 => vbyte::unit(body, left, at),
        2 => groups::unit(Fours, body, left, at),
        3 => g8iu::unit(body, left, at),
        4 => groups::unit(Stream, body, left, at),
        5 => elias::unit(Gamma, body, left, at),
        6 => elias::unit(Delta, body, left, at),
        8 => direct::unit(body, left, at),
        _ => groups::unit(Batches, body, left, at),
    }
}

// Takes units from a position on into work from a place on, as far as they are plain and there is room for their numbers; perhaps none.
pub fn take_units(
    code: u8,
    body: &[u8],
    left: usize,
    at: Position,
    work: &mut [u32],
    from: Place,
    room: usize,
) -> Taken
    requires { Target body.now work.old from.number room }
    ensures { Took (code_of code) body.now left at room from.number work.old work.new result }
{
    match code {
        1 => vbyte::take(body, left, at, work, from, room),
        2 => groups::take(Fours, body, left, at, work, from, room),
        3 => g8iu::take(body, left, at, work, from, room),
        4 => groups::take(Stream, body, left, at, work, from, room),
        5 => elias::take(Gamma, body, left, at, work, from, room),
        6 => elias::take(Delta, body, left, at, work, from, room),
        8 => direct::take(body, left, at, work, from, room),
        _ => groups::take(Batches, body, left, at, work, from, room),
    }
}

// Where the first unit of n numbers begins. Stream VByte's control bytes and code 8's parts must fit the body.
pub fn start_at(code: u8, body: &[u8], n: usize) -> Result<Position, Refusal>
    ensures { says result ≡ (code_of code).start body.now n }
{
    let first = Position::from(Offset { byte: 0 });
    if code == 4 {
        let controls = n.div_ceil(4);
        if body.len() < controls {
            return Err(Refusal::CutShort);
        }
        let tail = Offset { byte: controls };
        return Ok(Position { tail, ..first });
    }
    if code == 8 {
        if !direct::parts_fit(body) {
            return Err(Refusal::CutShort);
        }
    }
    Ok(first)
}

// What a unit of these numbers left spare: in G8IU alone another number could have followed them.
pub fn spare_after(code: u8, numbers: &[u32]) -> usize
    requires { length numbers.now ≤ unit_places }
    ensures { Spare (code_of code).joins numbers.now result }
{
    if code == 3 {
        return g8iu::spare_after(numbers);
    }
    0
}

// Whether nothing is left over at a position.
pub fn done_at(code: u8, body: &[u8], at: Position) -> bool
    requires { length body.now ≤ most_bytes }
    ensures { result ≡ (code_of code).done body.now at }
{
    let len = body.len();
    match code {
        4 => at.tail.byte == len,
        5 | 6 => elias::done(body, at),
        8 => direct::done(body, at),
        _ => at.head.byte == len,
    }
}

// Whether a number is looked up directly, and not unit by unit.
pub fn is_direct(code: u8) -> bool
    ensures { result ≡ is_direct (code_of code).way }
{
    code == 8
}

// How many numbers a unit may hold: a lookup leaves so much room, so that the unit that holds its place can be taken.
pub fn unit_most(code: u8) -> usize
    ensures { (1 ≤ result) × (result ≤ unit_places) }
{
    match code {
        2 | 4 => 4,
        3 => 8,
        7 => 16,
        _ => 1,
    }
}
