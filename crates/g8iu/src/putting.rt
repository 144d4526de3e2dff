// Putting a block to an output.
ghost use Rattle.std.specs.Prelude.{◌≡◌, ◌+◌, ◌-◌, ◌^◌, ◌≤◌, ◌<◌, length, set, replicate};
ghost use Rattle.std.proofs.lemmas.List.Edits.{sets};
ghost use Rattle.g8iu.specs.Blocks.{PutBlock};

use leaves::put;
use meaning::Offset;
use words::{byte_length, put_fewest};

// Puts a block's control byte, and zeros after the data bytes that are used.
fn close_block(out: &mut [u8], at: Offset, control: u32, used: usize)
    requires { (at.byte + 9 < 2 ^ 63) × (control < 256) × (used ≤ 8) }
    ensures { out.new ≡ sets (set out.old at.byte control) (at.byte + 1 + used) (replicate (8 - used) 0) }
{
    put(out, at, control as u8);
    let data = at.byte + 1;
    for i in used..8 {
        put(out, Offset { byte: data + i }, 0);
    }
}

// Puts a block of a list's first numbers, as many as fit, and answers how many.
pub fn put_block(list: &[u32], out: &mut [u8], at: Offset) -> usize
    requires { (0 < length list.now) × (at.byte + 9 < 2 ^ 63) }
    ensures { PutBlock list.now at.byte out.old out.new result }
{
    let data = at.byte + 1;
    let mut control: u32 = 255;
    let mut used: usize = 0;
    for (i, &x) in list.iter().enumerate() {
        let filled = used + byte_length(x);
        if 8 < filled {
            close_block(out, at, control, used);
            return i;
        }
        put_fewest(out, Offset { byte: data + used }, x);
        // The bit of the number's last byte.
        control -= 1 << (filled - 1);
        used = filled;
    }
    close_block(out, at, control, used);
    list.len()
}
