// Code 1, VByte: 7 bits a byte, lowest first, top bit 1 when more follows.
#![tactic(auto)]

ghost use Rattle.std.specs.Prelude.{not, ◌≡◌, ◌+◌, ◌^◌, ◌≤◌, ◌<◌, eqb, cond, length, MatchResult};
ghost use Rattle.meaning.specs.Answer.{given, need};
ghost use Rattle.meaning.specs.Codes.{code_vbyte};
ghost use Rattle.meaning.specs.Limits.{most_bytes, broken};
ghost use Rattle.meaning.specs.Places.{Source, Target, Wrote, Took, UnitIs};
ghost use Rattle.meaning.specs.Says.{says_by};
ghost use Rattle.meaning.specs.VByte.{sevens, vbyte};
ghost use Rattle.vbyte.specs.Numbers.{number_told, number_at, later_at, Ones, Byte, Cut};

use leaves::{put, taken};
use meaning::{Offset, Place, Position, Refusal, Taken, UnitRead};

// One number read, and the offset after it.
#[derive(Clone, Copy)]
struct Number {
    value: u32,
    next: Offset,
}

// Puts one number, and answers the offset after it. At most four of its bytes are followed by others.
fn put_number(out: &mut [u8], at: Offset, x: u32) -> Offset
    requires { at.byte + 5 < 2 ^ 63 }
    ensures { Wrote (vbyte x) at.byte out.old out.new result }
{
    let start = at.byte;
    let mut rest = x;
    for i in 0..4usize {
        let to = Offset { byte: start + i };
        if rest < 128 {
            put(out, to, rest as u8);
            return Offset { byte: to.byte + 1 };
        }
        put(out, to, (rest % 128 + 128) as u8);
        rest = rest / 128;
    }
    put(out, Offset { byte: start + 4 }, rest as u8);
    Offset { byte: start + 5 }
}

// Writes a list to an output, from an offset on, and answers the offset after it.
pub fn write(list: &[u32], out: &mut [u8], at: Offset) -> Offset
    requires { Source list.now at.byte }
    ensures { Wrote (code_vbyte.write list.now) at.byte out.old out.new result }
{
    let mut to = at;
    for &x in list {
        to = put_number(out, to, x);
    }
    to
}

// A number x that ends with a byte b, not its first; b is not 0, or fewer bytes would hold x.
fn last(b: u32, x: u32, next: Offset) -> Result<Number, Refusal>
    ensures { says_by number_told result ≡ need (not (eqb b 0)) broken (given (x, next.byte)) }
{
    if b == 0 {
        return Err(Refusal::Broken);
    }
    Ok(Number { value: x, next })
}

// The byte at an offset, which has to be there.
fn byte_at(body: &[u8], at: Offset) -> Result<u32, Refusal>
    ensures { MatchResult result (λ b. Byte body.now at.byte b) (λ e. Cut body.now at.byte e) }
{
    let &b = body.get(at.byte).ok_or(Refusal::CutShort)?;
    Ok(u32::from(b))
}

// The number whose first byte makes `first` and whose second stands at an offset.
// kept: four bytes in a row, since a loop over them costs each number 2 to 4 instructions, and a far lookup under differences its goal.
fn from_second(body: &[u8], at: Offset, first: u32) -> Result<Number, Refusal>
    requires { first < 2 ^ 7 }
    ensures { says_by number_told result ≡ later_at 3 (2 ^ 7) first body.now at.byte }
{
    let here = at.byte;
    let second = byte_at(body, at)?;
    let next = Offset { byte: here + 1 };
    if second < 128 {
        return last(second, first + 128 * second, next);
    }
    let low14 = first + 128 * (second - 128);
    let third = byte_at(body, next)?;
    let next = Offset { byte: here + 2 };
    if third < 128 {
        return last(third, low14 + 16384 * third, next);
    }
    let low21 = low14 + 16384 * (third - 128);
    let fourth = byte_at(body, next)?;
    let next = Offset { byte: here + 3 };
    if fourth < 128 {
        return last(fourth, low21 + 2097152 * fourth, next);
    }
    let low28 = low21 + 2097152 * (fourth - 128);
    let fifth = byte_at(body, next)?;
    if 15 < fifth {
        return Err(Refusal::Broken);
    }
    last(fifth, low28 + 268435456 * fifth, Offset { byte: here + 4 })
}

// The number at an offset; most take one byte.
fn number_at(body: &[u8], at: Offset) -> Result<Number, Refusal>
    ensures { says_by number_told result ≡ number_at body.now at.byte }
{
    let first = byte_at(body, at)?;
    let next = Offset { byte: at.byte + 1 };
    if first < 128 {
        return Ok(Number { value: first, next });
    }
    from_second(body, next, first - 128)
}

// Reads the unit at a position: one number.
pub fn unit(body: &[u8], left: usize, at: Position) -> Result<UnitRead, Refusal>
    requires { length body.now ≤ most_bytes }
    ensures { UnitIs (code_vbyte.unit body.now left at) result }
{
    let Number { value, next } = number_at(body, at.head)?;
    let mut numbers = [0u32; 16];
    numbers[0] = value;
    Ok(UnitRead {
        next: Position::from(next),
        count: 1,
        numbers,
    })
}

// Takes four numbers of one byte each where four such stand at an offset, and answers whether they do.
fn take_four(body: &[u8], at: Offset, work: &mut [u32], from: Place) -> bool
    requires { (at.byte + 4 ≤ length body.now) × (from.number + 4 ≤ length work.old) }
    ensures { Ones body.now at.byte 4 from.number work.old work.new (cond result 4 0) }
{
    let start = at.byte;
    let first = from.number;
    let a = u32::from(body[start]);
    let b = u32::from(body[start + 1]);
    let c = u32::from(body[start + 2]);
    let d = u32::from(body[start + 3]);
    if 127 < a || 127 < b || 127 < c || 127 < d {
        return false;
    }
    work[first] = a;
    work[first + 1] = b;
    work[first + 2] = c;
    work[first + 3] = d;
    true
}

// Takes numbers of one byte each from an offset on, four at a time and at most so many; answers how many it took.
fn take_ones(body: &[u8], at: Offset, work: &mut [u32], from: Place, most: usize) -> usize
    requires { from.number + most ≤ length work.old }
    ensures { Ones body.now at.byte most from.number work.old work.new result }
{
    let start = at.byte;
    let first = from.number;
    let limit = most.min(body.len().saturating_sub(start));
    let mut n: usize = 0;
    // Four a turn, which no `for` says of two slices at once.
    while n + 4 <= limit {
        let byte = start + n;
        let number = first + n;
        if !take_four(body, Offset { byte }, work, Place { number }) {
            return n;
        }
        n += 4;
    }
    n
}

// Takes numbers from a position on into work, from a place on, and at most as many as there is room for: it stops at a fault and refuses nothing.
// As long as numbers take one byte they are taken four at a time, and from the first that does not one by one.
pub fn take(
    body: &[u8],
    left: usize,
    at: Position,
    work: &mut [u32],
    from: Place,
    room: usize,
) -> Taken
    requires { Target body.now work.old from.number room }
    ensures { Took code_vbyte body.now left at room from.number work.old work.new result }
{
    let head = at.head;
    let first = from.number;
    let most = left.min(room);
    let ones = take_ones(body, head, work, from, most);
    let mut to = Offset {
        byte: head.byte + ones,
    };
    for i in ones..most {
        let Ok(Number { value, next }) = number_at(body, to) else {
            return taken(at, i, i, 0, Position::from(to));
        };
        work[first + i] = value;
        to = next;
    }
    taken(at, most, most, 0, Position::from(to))
}
