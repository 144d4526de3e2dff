// A number looked up directly: by the sums to its stretch, by the stretch's bits to its last byte.
ghost use Rattle.std.specs.Prelude.{◌≡◌, ◌<◌, ◌≤◌, length};
ghost use Rattle.meaning.specs.Direct.{ending_at, look_direct};
ghost use Rattle.meaning.specs.Limits.{most_bytes};
ghost use Rattle.meaning.specs.Says.{says};
ghost use Rattle.direct.specs.Parts.{Leads, look_fit};

use crate::input::Parts;
use bits::one_in;
use meaning::{Bit, Offset, Place, Refusal};

// A stretch, and how many numbers end before it, as the sums say.
#[derive(Clone, Copy)]
pub struct Stretch {
    pub number: usize,
    pub ended: usize,
}

impl Parts<'_> {
    // The first stretch whose sum is above the place, else the bits after the last sum.
    fn stretch_of(&self, place: Place) -> Stretch
        ensures { Leads self.now.body.now self.now.data_bytes place.number result }
    {
        let goal = place.number;
        let sums = self.data_bytes / 512;
        let mut ended: usize = 0;
        for s in 0..sums {
            let through = self.sum_at(s);
            if goal < through {
                return Stretch { number: s, ended };
            }
            ended = through;
        }
        Stretch {
            number: sums,
            ended,
        }
    }

    // The number that ends with data byte b.
    fn ending_at(&self, b: Bit) -> Result<u32, Refusal>
        requires { b.index < self.now.data_bytes }
        ensures { says result ≡ ending_at self.now.body.now b.index }
    {
        let zeros = self.zeros_before(b);
        let index = b.index - zeros;
        self.number_in(Bit { index }, zeros + 1)
    }

    // The number at a place.
    fn look(&self, place: Place) -> Result<u32, Refusal>
        requires { length self.now.body.now ≤ most_bytes }
        ensures { says result ≡ look_fit self.now.body.now place.number }
    {
        let d = self.data_bytes;
        let stretch = self.stretch_of(place);
        let s = stretch.number;
        let first = 512 * s;
        let words = (d - first).min(512).div_ceil(64);
        let byte = 4 + 64 * s;
        let left = place.number - stretch.ended;
        let Ok(bit) = one_in(self.body, Offset { byte }, words, left) else {
            return Err(Refusal::Broken);
        };
        let index = first + bit.index;
        if d <= index {
            return Err(Refusal::Broken);
        }
        self.ending_at(Bit { index })
    }
}

// The number at a place.
pub fn lookup(body: &[u8], place: Place) -> Result<u32, Refusal>
    requires { length body.now ≤ most_bytes }
    ensures { says result ≡ look_direct body.now place.number }
{
    Parts::of(body)?.look(place)
}
