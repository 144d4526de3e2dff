// Plain numbers taken one after another: each ends within four bits, is not among the last three data bytes, and needs all its bytes. What is not plain is
// left where it stands, and nothing is refused here.
ghost use Rattle.std.specs.Prelude.{◌≡◌, ◌+◌, ◌<◌, ◌≤◌, drop};
ghost use Rattle.meaning.specs.Bits.{zeros_first};
ghost use Rattle.meaning.specs.Direct.{flags};
ghost use Rattle.meaning.specs.Places.{Target};
ghost use Rattle.direct.specs.Parts.{Begun};

use crate::input::{Parts, data_at};
use leaves::taken;
use meaning::{Bit, Offset, Place, Position, Taken};
use words::{number_at, take_eight, word_at};

// The largest number of 1 to 4 bytes, and the smallest that needs them all. The loop reads copies: constants would be stored anew at each use.
const MOST: [u32; 4] = [255, 65535, 16777215, 4294967295];

const LEAST: [u32; 4] = [0, 256, 65536, 16777216];

impl Parts<'_> {
    // How many zeros come first from a bit on; 4 or more are not counted on.
    fn zeros_near(&self, i: Bit) -> usize
        requires { i.index + 4 ≤ self.now.data_bytes }
        ensures { result < 4 → zeros_first (drop i.index (flags self.now.body.now)) ≡ result }
    {
        let bit = i.index;
        let byte = 4 + bit / 8;
        let near = number_at(self.body, Offset { byte }, 2) >> (bit % 8);
        near.trailing_zeros() as usize
    }

    // Takes numbers of one byte each, eight at a time, as long as each of eight bits says so.
    fn take_ones(
        &self,
        left: usize,
        at: Position,
        work: &mut [u32],
        from: Place,
        room: usize,
    ) -> Taken
        requires { Target self.now.body.now work.old from.number room }
        ensures { Begun self.now.body.now left at room from.number work.old work.new result }
    {
        let first = from.number;
        let data = data_at(self.data_bytes);
        let most = left.min(room);
        let mut to = at.bit.index;
        let limit = most.min(self.data_bytes.saturating_sub(to));
        if to % 8 != 0 {
            return taken(at, 0, 0, 0, at);
        }
        // kept: a `for` over the eights takes an instruction more for each.
        let mut n: usize = 0;
        while n + 8 <= limit {
            if self.body[4 + to / 8] != 255 {
                return taken(at, n, n, 0, Position::from(Bit { index: to }));
            }
            let byte = data + to;
            let number = first + n;
            take_eight(self.body, Offset { byte }, work, Place { number });
            n += 8;
            to += 8;
        }
        taken(at, n, n, 0, Position::from(Bit { index: to }))
    }

    // Takes plain numbers from a position on into work, from a place on, and at most as many as there is room for.
    // kept: its parameters are those of `take`, whose form all codes share.
    pub fn take_plain(
        &self,
        left: usize,
        at: Position,
        work: &mut [u32],
        from: Place,
        room: usize,
    ) -> Taken
        requires { Target self.now.body.now work.old from.number room }
        ensures { Begun self.now.body.now left at room from.number work.old work.new result }
    {
        let largest = MOST;
        let smallest = LEAST;
        let data = data_at(self.data_bytes);
        let end = self.data_bytes.saturating_sub(3);
        let most = left.min(room);
        let ones = self.take_ones(left, at, work, from, most);
        let mut to = ones.next.bit.index;
        for i in ones.count..most {
            let here = Bit { index: to };
            if end <= to {
                return taken(at, i, i, 0, Position::from(here));
            }
            let zeros = self.zeros_near(here);
            if 3 < zeros {
                return taken(at, i, i, 0, Position::from(here));
            }
            let x = word_at(self.body, Offset { byte: data + to }) & largest[zeros];
            if x < smallest[zeros] {
                return taken(at, i, i, 0, Position::from(here));
            }
            work[from.number + i] = x;
            to += zeros + 1;
        }
        taken(at, most, most, 0, Position::from(Bit { index: to }))
    }
}
