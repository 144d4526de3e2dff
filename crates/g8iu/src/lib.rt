// Code 3, G8IU: blocks of a control byte and 8 data bytes. Bit i is 0 when data byte i ends a number.
#![tactic(auto)]

ghost use Rattle.std.specs.Prelude.{◌≡◌, ◌≤◌, length, MatchOption};
ghost use Rattle.meaning.specs.Codes.{code_g8iu};
ghost use Rattle.meaning.specs.G8IU.{block_lengths};
ghost use Rattle.meaning.specs.Limits.{most_bytes, unit_places};
ghost use Rattle.meaning.specs.Places.{Source, Target, Wrote, UnitIs, Took, Spare};
ghost use Rattle.g8iu.specs.Blocks.{allowed, Plain};

use crate::putting::put_block;
use crate::taking::{SIZES, has_block, take_ends};
use leaves::taken;
use meaning::{Offset, Place, Position, Refusal, Taken, UnitRead};
use words::data_length;

mod putting;
mod taking;

// Writes a list to an output, from an offset on, and answers the offset after it.
pub fn write(list: &[u32], out: &mut [u8], at: Offset) -> Offset
    requires { Source list.now at.byte }
    ensures { Wrote (code_g8iu.write list.now) at.byte out.old out.new result }
{
    let mut rest = list;
    let mut to = at.byte;
    // A turn takes as many numbers as fit into a block.
    while !rest.is_empty() {
        let taken = put_block(rest, out, Offset { byte: to });
        rest = &rest[taken..];
        to += 9;
    }
    Offset { byte: to }
}

// Whether a control byte is allowed where so many numbers are still to come: its block holds one at least and none beyond the list, and
// its waste is at most 3 bytes unless the list ends there.
fn is_allowed(control: u8, left: usize) -> bool
    ensures { result ≡ allowed left (block_lengths control) }
{
    let count = (8 - u8::count_ones(control)) as usize;
    if count < 1 || left < count {
        return false;
    }
    count == left || 16 <= 255 - u32::from(control)
}

// Reads the unit at a position: a block.
pub fn unit(body: &[u8], left: usize, at: Position) -> Result<UnitRead, Refusal>
    requires { length body.now ≤ most_bytes }
    ensures { UnitIs (code_g8iu.unit body.now left at) result }
{
    let head = at.head;
    let first = head.byte;
    if !has_block(body, head) {
        return Err(Refusal::CutShort);
    }
    let control = body[first];
    if !is_allowed(control, left) {
        return Err(Refusal::Broken);
    }
    let sizes = SIZES;
    let mut numbers = [0u32; 16];
    let ends = 255 - u32::from(control);
    let start = Place { number: 0 };
    let end = take_ends(body, head, ends, &sizes, &mut numbers, start).ok_or(Refusal::Broken)?;
    Ok(UnitRead {
        next: Position::from(Offset { byte: first + 9 }),
        count: end.number,
        numbers,
    })
}

// The ends of a plain block: none where there is no block at the offset, where more than 3 of its bytes are waste, and where its first number would
// have fitted into what the block before left spare.
fn plain_ends(body: &[u8], at: Offset, spare: usize) -> Option<u32>
    ensures { MatchOption result (Unit {0}) (λ ends. Plain body.now at.byte spare ends) }
{
    if !has_block(body, at) {
        return None;
    }
    let ends = 255 - u32::from(body[at.byte]);
    if ends < 16 {
        return None;
    }
    if (u32::trailing_zeros(ends) as usize) < spare {
        return None;
    }
    Some(ends)
}

// Takes blocks from a position on into work, as long as they are plain, at least 8 numbers are still to come and there is room for 8.
pub fn take(
    body: &[u8],
    left: usize,
    at: Position,
    work: &mut [u32],
    from: Place,
    room: usize,
) -> Taken
    requires { Target body.now work.old from.number room }
    ensures { Took code_g8iu body.now left at room from.number work.old work.new result }
{
    let sizes = SIZES;
    let head = at.head;
    let first = from.number;
    // From there on fewer than 8 numbers are still to come, or there is room for fewer.
    let end = first + left.min(room).saturating_sub(7);
    let mut next = from;
    let mut to = head.byte;
    let mut spare: usize = 0;
    // A turn takes a block, of as many numbers as it holds.
    while next.number < end {
        let here = Offset { byte: to };
        let Some(ends) = plain_ends(body, here, spare) else {
            break;
        };
        let Some(after) = take_ends(body, here, ends, &sizes, work, next) else {
            break;
        };
        next = after;
        to += 9;
        spare = u32::leading_zeros(ends) as usize - 24;
    }
    let count = next.number - first;
    let units = (to - head.byte) / 9;
    taken(at, count, units, spare, Position::from(Offset { byte: to }))
}

// What a block of some numbers left spare of its 8 data bytes.
pub fn spare_after(numbers: &[u32]) -> usize
    requires { length numbers.now ≤ unit_places }
    ensures { Spare code_g8iu.joins numbers.now result }
{
    if numbers.is_empty() {
        return 0;
    }
    8usize.saturating_sub(data_length(numbers))
}
