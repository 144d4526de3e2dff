// Whole groups, taken four numbers at a time where 16 bytes of data are there: each number is one load of four bytes. Nothing is refused here: at
// anything else the loop stops.
ghost use Rattle.std.specs.Prelude.{◌≡◌, ◌+◌, ◌<◌, ◌≤◌, length, IfSome};
ghost use Rattle.meaning.specs.Codes.{code_batches};
ghost use Rattle.meaning.specs.Places.{Target, Took};
ghost use Rattle.groups.specs.Layouts.{code_for, layout_of};
ghost use Rattle.groups.specs.Whole.{Field, FourTaken, UnitTaken};

use crate::group::Form;
use leaves::taken;
use meaning::{Offset, Place, Position, Taken};
use words::word_at;

// The largest number of one, two, three and four bytes, and the least that needs so many.
#[derive(Clone, Copy)]
struct Bounds {
    largest: [u32; 4],
    least: [u32; 4],
}

// A loop lends a copy: a constant would be stored anew at each use. kept: g8iu and direct each have such a table beside their own loop.
const BOUNDS: Bounds = Bounds {
    largest: [255, 65535, 16777215, 4294967295],
    least: [0, 256, 65536, 16777216],
};

impl Bounds {
    // The number whose field says f, where four bytes are there, if it needs so many bytes.
    fn number_at(&self, body: &[u8], at: Offset, f: usize) -> Option<u32>
        requires { (f < 4) × (at.byte + 4 ≤ length body.now) × (self.now ≡ BOUNDS) }
        ensures { IfSome result (λ x. Field body.now at.byte f x) }
    {
        let x = word_at(body, at) & self.largest[f];
        if x < self.least[f] { None } else { Some(x) }
    }

    // The four numbers of a control byte c are stored, where each has the bytes that it needs. Answers where their data ends. Each of them has one byte
    // at least: `to` counts only those beyond, so that a load's offset needs no sum of its own.
    fn take_four(&self, body: &[u8], c: usize, from: Offset, four: &mut [u32]) -> Option<Offset>
        requires { (c < 256) × (from.byte + 16 ≤ length body.now) × (length four.old ≡ 4) × (self.now ≡ BOUNDS) }
        ensures { FourTaken body.now c from.byte four.old four.new result }
    {
        let mut fields = c;
        let mut to = from.byte;
        let mut numbers = [0u32; 4];
        for i in 0..4 {
            let f = fields % 4;
            numbers[i] = self.number_at(body, Offset { byte: to + i }, f)?;
            to += f;
            fields = fields / 4;
        }
        four.copy_from_slice(&numbers);
        Some(Offset { byte: to + 4 })
    }

    // The four numbers of the group at a position are stored, where it is plain. Answers where the next group is.
    fn take_group(
        &self,
        form: Form,
        body: &[u8],
        at: Position,
        four: &mut [u32],
    ) -> Option<Position>
        requires { (length four.old ≡ 4) × ((layout_of form).group.most ≡ 4) × (self.now ≡ BOUNDS) }
        ensures { UnitTaken (code_for form) 4 body.now at four.old four.new result }
    {
        let head = at.head;
        if !form.stands(body.len(), at) {
            return None;
        }
        let c = usize::from(body[head.byte]);
        let end = self.take_four(body, c, form.data(at, 1), four)?;
        Some(form.next(at, 1, end))
    }

    // The same of the 16 numbers of the batch at a position.
    fn take_batch(&self, body: &[u8], at: Position, places: &mut [u32]) -> Option<Position>
        requires { (length places.old ≡ 16) × (self.now ≡ BOUNDS) }
        ensures { UnitTaken code_batches 16 body.now at places.old places.new result }
    {
        let head = at.head;
        if body.len().saturating_sub(3) <= head.byte {
            return None;
        }
        let mut masks = word_at(body, head) as usize;
        let mut to = Form::Batches.data(at, 4);
        let mut batch = [0u32; 16];
        for i in 0..4 {
            if body.len().saturating_sub(15) <= to.byte {
                return None;
            }
            let first = 4 * i;
            to = self.take_four(body, 255 - masks % 256, to, &mut batch[first..first + 4])?;
            masks = masks / 256;
        }
        places.copy_from_slice(&batch);
        Some(Form::Batches.next(at, 4, to))
    }

    // The numbers of the full unit at a position are stored, where it is plain. Answers where the next unit is.
    fn take_unit(
        &self,
        form: Form,
        body: &[u8],
        at: Position,
        places: &mut [u32],
    ) -> Option<Position>
        requires { (length places.old ≡ (layout_of form).group.most) × (self.now ≡ BOUNDS) }
        ensures { UnitTaken (code_for form) (layout_of form).group.most body.now at places.old places.new result }
    {
        match form {
            Form::Fours | Form::Stream => self.take_group(form, body, at, places),
            Form::Batches => self.take_batch(body, at, places),
        }
    }
}

// Takes units from a position on into work, as far as they are plain and there is room for them. Inlined for a loop of each form's own.
#[inline(always)]
pub fn take(
    form: Form,
    body: &[u8],
    left: usize,
    at: Position,
    work: &mut [u32],
    from: Place,
    room: usize,
) -> Taken
    requires { Target body.now work.old from.number room }
    ensures { Took (code_for form) body.now left at room from.number work.old work.new result }
{
    let bounds = BOUNDS;
    let most = form.most();
    let limit = left.min(room) / most;
    let mut next = form.used(at);
    for units in 0..limit {
        let first = from.number + most * units;
        let Some(after) = bounds.take_unit(form, body, next, &mut work[first..first + most]) else {
            return taken(at, most * units, units, 0, next);
        };
        next = after;
    }
    taken(at, most * limit, limit, 0, next)
}
