// A list written: the number of its data bytes, their bits, the sums, the data.
ghost use Rattle.std.specs.Prelude.{◌+◌, ◌*◌, ◌<◌, ◌≤◌, ◌^◌, length};
ghost use Rattle.meaning.specs.Codes.{code_direct};
ghost use Rattle.meaning.specs.Places.{Source, Wrote};
ghost use Rattle.direct.specs.Parts.{flags_of, sums_of};

use crate::input::{data_at, sums_at};
use leaves::put;
use meaning::Offset;
use words::{byte_length, data_length, put_data, put_number};

// Puts the bits of a list, each 1 at its number's last byte; answers the offset after them.
fn put_flags(list: &[u32], out: &mut [u8], at: Offset) -> Offset
    requires { at.byte + length list.now < 2 ^ 63 }
    ensures { Wrote (flags_of list.now) at.byte out.old out.new result }
{
    let mut to = at.byte;
    // Bits that fill no byte yet, and how many they are.
    let mut wait: u32 = 0;
    let mut count: usize = 0;
    for &x in list {
        count += byte_length(x);
        wait += 1 << (count - 1);
        if 8 <= count {
            put(out, Offset { byte: to }, (wait % 256) as u8);
            to += 1;
            wait /= 256;
            count -= 8;
        }
    }
    if 0 < count {
        put(out, Offset { byte: to }, (wait % 256) as u8);
        to += 1;
    }
    Offset { byte: to }
}

// Puts the sums of a list: where a number's bytes reach the end of a stretch, the numbers that end in the stretches so far.
fn put_sums(list: &[u32], out: &mut [u8], at: Offset) -> Offset
    requires { at.byte + 4 * length list.now < 2 ^ 63 }
    ensures { Wrote (sums_of list.now) at.byte out.old out.new result }
{
    let mut to = at.byte;
    // Data bytes since the last full stretch.
    let mut count: usize = 0;
    for (i, &x) in list.iter().enumerate() {
        count += byte_length(x);
        if 512 <= count {
            count -= 512;
            // A number that goes on after the stretch does not end in it.
            let ended = if count == 0 { i + 1 } else { i };
            put_number(out, Offset { byte: to }, ended, 2);
            to += 2;
        }
    }
    Offset { byte: to }
}

// Writes a list to an output, from an offset on; answers the offset after it.
pub fn write(list: &[u32], out: &mut [u8], at: Offset) -> Offset
    requires { Source list.now at.byte }
    ensures { Wrote (code_direct.write list.now) at.byte out.old out.new result }
{
    let start = at.byte;
    let d = data_length(list);
    let data = start + data_at(d);
    // Where nothing lies within the output, only the size is asked for.
    if out.len() <= start {
        let end = data + d;
        return Offset { byte: end };
    }
    put_number(out, at, d, 4);
    put_flags(list, out, Offset { byte: start + 4 });
    let sums = start + sums_at(d);
    put_sums(list, out, Offset { byte: sums });
    put_data(list, out, Offset { byte: data })
}
