// Taking the numbers of one block from a body. Nothing is refused here: where a block is at fault no number is taken, and all is as it was.
ghost use Rattle.std.specs.Prelude.{◌≡◌, ◌+◌, ◌≤◌, leb, length};
ghost use Rattle.std.proofs.lemmas.List.Edits.{sets};
ghost use Rattle.meaning.specs.Places.{part};
ghost use Rattle.g8iu.specs.Blocks.{Ending, BlockIs, BegunIs};

use meaning::{Offset, Place};
use words::{eight_at, take_eight};

// By a number's bytes less 1: the largest number of so many bytes, and the smallest that needs them all; no number has 5 to 8 bytes.
#[derive(Clone, Copy)]
pub struct Sizes {
    pub most: [u64; 8],
    pub least: [u64; 8],
}

// A loop lends a copy: a constant would be stored anew at each use.
pub const SIZES: Sizes = Sizes {
    most: [255, 65535, 16777215, 4294967295, 0, 0, 0, 0],
    least: [0, 256, 65536, 16777216, 1, 1, 1, 1],
};

// Whether a block fits into a body at an offset.
pub fn has_block(body: &[u8], at: Offset) -> bool
    ensures { result ≡ leb (at.byte + 9) (length body.now) }
{
    at.byte < body.len().saturating_sub(8)
}

// Copies eight numbers.
// kept: `copy_from_slice` asks at each block whether the two overlap, which costs a far lookup its goal.
fn copy_eight(list: &[u32], from: Place, out: &mut [u32], to: Place)
    requires { (from.number + 8 ≤ length list.now) × (to.number + 8 ≤ length out.old) }
    ensures { out.new ≡ sets out.old to.number (part list.now from.number 8) }
{
    let source = from.number;
    let first = to.number;
    for i in 0..8usize {
        out[first + i] = list[source + i];
    }
}

// Takes a block whose ends are given, and answers the place after its numbers, if it is not at fault: some may be stored all the same.
// A number of f + 1 bytes is the data masked by most[f], and needs them all where it is not below least[f].
fn take_numbers(
    body: &[u8],
    at: Offset,
    ends: u32,
    sizes: &Sizes,
    out: &mut [u32],
    to: Place,
) -> Option<Place>
    requires { Ending body.now at.byte ends sizes.now.most sizes.now.least out.old to.number }
    ensures { BegunIs body.now at.byte to.number out.old out.new result }
{
    let data = at.byte + 1;
    let mut rest = eight_at(body, Offset { byte: data });
    let mut coming = ends;
    let mut next = to.number;
    // A turn goes on to the next end.
    while coming != 0 {
        let f = u32::trailing_zeros(coming) as usize;
        let x = rest & sizes.most[f];
        if x < sizes.least[f] {
            return None;
        }
        out[next] = x as u32;
        next += 1;
        let len = f + 1;
        rest = rest >> (8 * len);
        coming = coming >> len;
    }
    // What the numbers leave of the data is waste.
    if rest != 0 {
        return None;
    }
    Some(Place { number: next })
}

// The same, but what was stored of a block at fault is put back.
fn take_plain(
    body: &[u8],
    at: Offset,
    ends: u32,
    sizes: &Sizes,
    out: &mut [u32],
    to: Place,
) -> Option<Place>
    requires { Ending body.now at.byte ends sizes.now.most sizes.now.least out.old to.number }
    ensures { BlockIs body.now at.byte to.number out.old out.new result }
{
    let start = Place { number: 0 };
    let mut old = [0u32; 8];
    copy_eight(out, to, &mut old, start);
    let Some(next) = take_numbers(body, at, ends, sizes, out, to) else {
        copy_eight(&old, start, out, to);
        return None;
    };
    Some(next)
}

// The same; the block of small numbers needs no masks, and nothing can be amiss in it.
pub fn take_ends(
    body: &[u8],
    at: Offset,
    ends: u32,
    sizes: &Sizes,
    out: &mut [u32],
    to: Place,
) -> Option<Place>
    requires { Ending body.now at.byte ends sizes.now.most sizes.now.least out.old to.number }
    ensures { BlockIs body.now at.byte to.number out.old out.new result }
{
    if ends == 255 {
        let data = at.byte + 1;
        take_eight(body, Offset { byte: data }, out, to);
        return Some(Place {
            number: to.number + 8,
        });
    }
    take_plain(body, at, ends, sizes, out, to)
}
