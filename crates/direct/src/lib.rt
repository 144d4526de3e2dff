// Code 8, the directly addressed list: a bit for each data byte says where a number ends, and sums over stretches of 512 bits lead to a number directly.
#![tactic(auto)]

pub mod input;
pub mod looking;
pub mod output;
pub mod plain;

ghost use Rattle.std.specs.Prelude.{◌≡◌, ◌≤◌, length};
ghost use Rattle.meaning.specs.Codes.{code_direct};
ghost use Rattle.meaning.specs.Direct.{spare_zero, true_sums, sum_count};
ghost use Rattle.meaning.specs.Limits.{most_bytes};
ghost use Rattle.meaning.specs.Places.{Target, Took, UnitIs};

use bits::words_of::ones_in;
pub use input::parts_fit;
use input::{Parts, data_at};
use leaves::taken;
pub use looking::lookup;
use meaning::{Offset, Place, Position, Refusal, Taken, UnitRead};
pub use output::write;

// Reads the unit at a position: one number.
pub fn unit(body: &[u8], left: usize, at: Position) -> Result<UnitRead, Refusal>
    requires { length body.now ≤ most_bytes }
    ensures { UnitIs (code_direct.unit body.now left at) result }
{
    let read = Parts::of(body)?.next_number(at.bit)?;
    let mut numbers = [0u32; 16];
    numbers[0] = read.number;
    Ok(UnitRead {
        next: Position::from(read.end),
        count: 1,
        numbers,
    })
}

// Takes numbers from a position on into work, from a place on, and at most as many as there is room for: it stops at a fault and refuses nothing.
// Plain numbers first; from the first that is not, one by one.
pub fn take(
    body: &[u8],
    left: usize,
    at: Position,
    work: &mut [u32],
    from: Place,
    room: usize,
) -> Taken
    requires { Target body.now work.old from.number room }
    ensures { Took code_direct body.now left at room from.number work.old work.new result }
{
    let first = from.number;
    let Ok(parts) = Parts::of(body) else {
        return taken(at, 0, 0, 0, at);
    };
    let most = left.min(room);
    let begun = parts.take_plain(left, at, work, from, most);
    let mut to = begun.next.bit;
    for i in begun.count..most {
        let Ok(next) = parts.next_number(to) else {
            return taken(at, i, i, 0, Position::from(to));
        };
        work[first + i] = next.number;
        to = next.end;
    }
    taken(at, most, most, 0, Position::from(to))
}

impl Parts<'_> {
    // Whether the spare bits of the last byte of bits are 0.
    fn spare_zero(&self) -> bool
        ensures { result ≡ spare_zero self.now.body.now }
    {
        let d = self.data_bytes;
        if d % 8 == 0 {
            return true;
        }
        let last = self.body[4 + d / 8];
        last >> (d % 8) == 0
    }

    // Whether every sum is true.
    fn sums_true(&self) -> bool
        requires { length self.now.body.now ≤ most_bytes }
        ensures { result ≡ true_sums (sum_count self.now.data_bytes) self.now.body.now }
    {
        let mut ones: usize = 0;
        for s in 0..self.data_bytes / 512 {
            let byte = 4 + 64 * s;
            ones += ones_in(self.body, Offset { byte }, 8);
            if self.sum_at(s) != ones {
                return false;
            }
        }
        true
    }
}

// Whether nothing is left over at a position, spare bits are 0 and every sum is true.
pub fn done(body: &[u8], at: Position) -> bool
    requires { length body.now ≤ most_bytes }
    ensures { result ≡ code_direct.done body.now at }
{
    let Ok(parts) = Parts::of(body) else {
        return false;
    };
    let d = parts.data_bytes;
    if at.bit.index != d || data_at(d) + d != parts.body.len() {
        return false;
    }
    parts.spare_zero() && parts.sums_true()
}
