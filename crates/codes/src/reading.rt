// Strict reading of a whole body by any code.
ghost use Rattle.meaning.specs.Codes.{code_of, read_code};
ghost use Rattle.meaning.specs.Places.{Target, Got};

use crate::dispatch::{done_at, start_at, take_units};
use crate::stretch::or_unit;
use meaning::{Place, Refusal};
use words::byte_length;

// Reads n numbers strictly into work from a place on: no unit's first number fits into what the unit before left spare, and nothing is left over.
pub fn read_code(
    code: u8,
    body: &[u8],
    n: usize,
    work: &mut [u32],
    from: Place,
) -> Result<usize, Refusal>
    requires { Target body.now work.old from.number n }
    ensures { Got (read_code (code_of code) body.now n) from.number work.old work.new result }
{
    let first = from.number;
    let mut at = start_at(code, body, n)?;
    let mut i: usize = 0;
    let mut spare: usize = 0;
    // A turn reads a stretch of units, as long as it is.
    while i < n {
        let place = first + i;
        let left = n - i;
        let to = Place { number: place };
        let plain = take_units(code, body, left, at, work, to, left);
        let taken = or_unit(plain, code, body, left, at, work, to, left)?;
        if byte_length(work[place]) <= spare {
            return Err(Refusal::Broken);
        }
        i += taken.count;
        at = taken.next;
        spare = taken.spare;
    }
    if done_at(code, body, at) {
        return Ok(n);
    }
    Err(Refusal::Broken)
}
