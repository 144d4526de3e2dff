// The next units of any code at once: those that are plain by `take`, and where the first is not, that one by all its rules.
ghost use Rattle.std.specs.Prelude.{◌<◌};
ghost use Rattle.meaning.specs.Codes.{code_of};
ghost use Rattle.meaning.specs.Places.{Target};
ghost use Rattle.codes.specs.Goes.{Goes, Follows};

use crate::dispatch::{spare_after, take_units, unit_at};
use leaves::lay;
use meaning::{Place, Position, Refusal, Taken};

// What was taken from a position on, where that is something; else the one unit there, by all its rules. Its numbers go to work from a place on, as
// far as there is room.
pub fn or_unit(
    plain: Taken,
    code: u8,
    body: &[u8],
    left: usize,
    at: Position,
    work: &mut [u32],
    from: Place,
    room: usize,
) -> Result<Taken, Refusal>
    requires { Target body.now work.old from.number room × (0 < left) }
    ensures { Follows (code_of code) body.now left at room from.number plain work.old work.new result }
{
    if 0 < plain.count {
        return Ok(plain);
    }
    let read = unit_at(code, body, left, at)?;
    let numbers = read.numbers;
    let count = read.count;
    lay(work, from, numbers, room.min(count));
    let spare = spare_after(code, &numbers[..count]);
    Ok(Taken {
        count,
        units: 1,
        next: read.next,
        spare,
    })
}

// The units from a position on, one at least: their numbers go to work from a place on, as far as there is room.
pub fn stretch(
    code: u8,
    body: &[u8],
    left: usize,
    at: Position,
    work: &mut [u32],
    from: Place,
    room: usize,
) -> Result<Taken, Refusal>
    requires { Target body.now work.old from.number room × (0 < left) }
    ensures { Goes (code_of code) body.now left at room from.number work.old work.new result }
{
    let plain = take_units(code, body, left, at, work, from, room);
    or_unit(plain, code, body, left, at, work, from, room)
}
