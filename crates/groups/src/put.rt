// The numbers of a list put into an output, group by group.
ghost use Rattle.std.specs.Prelude.{◌≡◌, ◌+◌, ◌*◌, ◌<◌, ◌≤◌, ◌^◌, length};
ghost use Rattle.meaning.specs.Limits.{unit_places};
ghost use Rattle.meaning.specs.Places.{Source, Wrote};
ghost use Rattle.groups.specs.Layouts.{code_for};
ghost use Rattle.groups.specs.Parts.{size_of, Laid};

use crate::group::Form;
use meaning::Offset;
use words::{data_length, put_fewest, put_number};

// Where a group's data ends, its fields as codes 2 and 4 have them, and one more than so many fields can be at most.
#[derive(Clone, Copy)]
pub struct Fielded {
    pub end: Offset,
    pub fields: usize,
    pub scale: usize,
}

// Puts the data of a group, and answers also its fields: a length is how far its number's data goes.
fn put_fielded(group: &[u32], out: &mut [u8], at: Offset) -> Fielded
    requires { (length group.now ≤ unit_places) × (at.byte + 4 * length group.now + 4 < 2 ^ 64) }
    ensures { Laid group.now at.byte out.old out.new result }
{
    let mut to = at;
    let mut fields: usize = 0;
    let mut scale: usize = 1;
    for &x in group {
        let end = put_fewest(out, to, x);
        let field = end.byte - to.byte - 1;
        fields += scale * field;
        scale = scale * 4;
        to = end;
    }
    Fielded {
        end: to,
        fields,
        scale,
    }
}

// The offset after a list in groups: a control byte for every four numbers, and the data.
fn end_after(list: &[u32], at: Offset) -> Offset
    requires { Source list.now at.byte }
    ensures { result.byte ≡ at.byte + size_of list.now }
{
    let data = at.byte + list.len().div_ceil(4);
    Offset {
        byte: data + data_length(list),
    }
}

// Writes a list, and answers the offset after it. Where nothing of it lies within the output, that is all there is to do. Inlined for
// a loop of each form's own.
#[inline(always)]
pub fn write(form: Form, list: &[u32], out: &mut [u8], at: Offset) -> Offset
    requires { Source list.now at.byte }
    ensures { Wrote ((code_for form).write list.now) at.byte out.old out.new result }
{
    if out.len() <= at.byte {
        return end_after(list, at);
    }
    let mut next = form.first(at, list.len().div_ceil(4));
    for group in list.chunks(form.most()) {
        let bytes = group.len().div_ceil(4);
        let laid = put_fielded(group, out, form.data(next, bytes));
        put_number(out, next.head, form.fields(laid), bytes);
        next = form.next(next, bytes, laid.end);
    }
    form.data(next, 0)
}
