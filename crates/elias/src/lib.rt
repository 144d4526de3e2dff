// Elias gamma and delta, codes 5 and 6: codewords packed highest bit of each byte first, spare bits of the last byte 0.
#![tactic(auto)]

mod input;
mod output;
mod word;

ghost use Rattle.std.specs.Prelude.{◌≡◌, ◌≤◌, length};
ghost use Rattle.meaning.specs.Elias.{done_elias};
ghost use Rattle.meaning.specs.Limits.{most_bytes};
ghost use Rattle.meaning.specs.Places.{Source, Wrote, UnitIs, Target, Took};
ghost use Rattle.elias.specs.Says.{code_with};

use crate::input::{is_inside, peek, top};
use crate::output::Pending;
use leaves::taken;
use meaning::{Bit, Offset, Place, Position, Refusal, Taken, UnitRead};
pub use word::Form;

// The codeword at a position.
pub fn unit(form: Form, body: &[u8], left: usize, at: Position) -> Result<UnitRead, Refusal>
    requires { length body.now ≤ most_bytes }
    ensures { UnitIs ((code_with form).unit body.now left at) result }
{
    let bit = at.bit;
    let word = form.word_at::<false>(body, bit)?;
    let mut numbers = [0u32; 16];
    numbers[0] = (word.value - 1) as u32;
    let index = bit.index + word.size;
    let next = Position::from(Bit { index });
    Ok(UnitRead {
        next,
        count: 1,
        numbers,
    })
}

// Takes codewords from a position on, into work from a place on, and stops at one that would be refused, or where the body's end comes near.
pub fn take(
    form: Form,
    body: &[u8],
    left: usize,
    at: Position,
    work: &mut [u32],
    from: Place,
    room: usize,
) -> Taken
    requires { Target body.now work.old from.number room }
    ensures { Took (code_with form) body.now left at room from.number work.old work.new result }
{
    if is_inside::<true>(body, at.bit) {
        return take_in::<true>(form, body, left, at, work, from, room);
    }
    take_in::<false>(form, body, left, at, work, from, room)
}

// The same in one loop: inside, or near the end. Apart from each other they keep what they use in registers; the compiler makes a loop for each form.
#[inline(never)]
fn take_in<const INSIDE: bool>(
    form: Form,
    body: &[u8],
    left: usize,
    at: Position,
    work: &mut [u32],
    from: Place,
    room: usize,
) -> Taken
    requires { Target body.now work.old from.number room }
    ensures { Took (code_with form) body.now left at room from.number work.old work.new result }
{
    let first = from.number;
    let most = left.min(room);
    let mut index = at.bit.index;
    for i in 0..most {
        let bit = Bit { index };
        if !is_inside::<INSIDE>(body, bit) {
            return taken(at, i, i, 0, Position::from(bit));
        }
        let Ok(word) = form.word_at::<INSIDE>(body, bit) else {
            return taken(at, i, i, 0, Position::from(bit));
        };
        work[first + i] = (word.value - 1) as u32;
        index += word.size;
    }
    taken(at, most, most, 0, Position::from(Bit { index }))
}

// Writes the codewords of a list from an offset of an output on.
pub fn write(form: Form, list: &[u32], out: &mut [u8], at: Offset) -> Offset
    requires { Source list.now at.byte }
    ensures { Wrote ((code_with form).write list.now) at.byte out.old out.new result }
{
    let mut wait = Pending {
        at,
        bits: 0,
        count: 0,
    };
    for &x in list {
        // v may be 2^32: nothing is added in 32 bits
        let v = u64::from(x) + 1;
        wait = wait.push_word(out, v, form);
    }
    wait.finish(out)
}

// Nothing is left from a position on but spare bits, which are 0.
pub fn done(body: &[u8], at: Position) -> bool
    requires { length body.now ≤ most_bytes }
    ensures { result ≡ done_elias body.now at }
{
    let left = (8 * body.len()).saturating_sub(at.bit.index);
    left < 8 && top(peek::<false>(body, at.bit), 7) == 0
}
