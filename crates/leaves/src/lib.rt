// Small functions that several crates share.
#![tactic(auto)]

ghost use Rattle.std.specs.Prelude.{◌≡◌, ◌≤◌, ◌+◌, length, set, take};
ghost use Rattle.std.proofs.lemmas.List.Edits.{sets};
ghost use Rattle.meaning.specs.Limits.{unit_places};
ghost use Rattle.meaning.specs.Places.{Ends};

use meaning::{Offset, Place, Position, Taken};

// A byte is put at an offset of an output; past its end nothing is put.
pub fn put(out: &mut [u8], at: Offset, b: u8)
    ensures { out.new ≡ set out.old at.byte b }
{
    let here = at.byte;
    if here < out.len() {
        out[here] = b;
    }
}

// A unit's first k numbers go to work from a place on.
pub fn lay(work: &mut [u32], from: Place, numbers: [u32; 16], k: usize)
    requires { (k ≤ unit_places) × (from.number + k ≤ length work.old) }
    ensures { work.new ≡ sets work.old from.number (take k numbers) }
{
    let first = from.number;
    work[first..first + k].copy_from_slice(&numbers[..k]);
}

// So many numbers of so many units were taken from a position on, the last left so many bytes spare, and the next unit begins at another position;
// where none was taken, the position stays.
pub fn taken(at: Position, count: usize, units: usize, spare: usize, next: Position) -> Taken
    ensures { Ends at count units spare next result }
{
    let next = if count == 0 { at } else { next };
    Taken {
        count,
        units,
        next,
        spare,
    }
}
