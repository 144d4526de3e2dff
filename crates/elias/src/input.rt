// Bits of a body, seen through a window of eight bytes. INSIDE says that they are known to be there, so that no test asks for the body's end.
ghost use Rattle.std.specs.Prelude.{◌≡◌, ◌+◌, ◌*◌, ◌/◌, ◌^◌, ◌<◌, ◌≤◌, IsTrue, IsFalse, length, take, drop};
ghost use Rattle.meaning.specs.Bits.{bits_high, bits_of, number_high};
ghost use Rattle.elias.specs.Ahead.{Ahead};
ghost use Rattle.elias.specs.Padded.{padded};

use meaning::{Bit, Offset};

// The eight bytes from an offset on, where they are there.
fn eight_inside(body: &[u8], at: Offset) -> [u8; 8]
    requires { at.byte + 8 ≤ length body.now }
    ensures { result ≡ padded 8 (drop at.byte body.now) }
{
    let first = at.byte;
    <[u8; 8]>::try_from(&body[first..first + 8]).unwrap()
}

// The same wherever they lie, as one number, the first highest; past the end 0.
fn eight_near(body: &[u8], at: Offset) -> u64
    requires { at.byte + 8 < 2 ^ 64 }
    ensures { bits_high 64 result ≡ padded 64 (drop (8 * at.byte) (bits_of body.now)) }
{
    let first = at.byte;
    if first + 8 <= body.len() {
        return u64::from_be_bytes(eight_inside(body, at));
    }
    let there = &body[first.min(body.len())..];
    let mut bytes = [0u8; 8];
    bytes[..there.len()].copy_from_slice(there);
    u64::from_be_bytes(bytes)
}

// The bits from a bit on, 57 at least, the first highest; past the end 0.
pub fn peek<const INSIDE: bool>(body: &[u8], at: Bit) -> u64
    requires { Ahead INSIDE 8 body.now at.index }
    ensures { take 57 (bits_high 64 result) ≡ padded 57 (drop at.index (bits_of body.now)) }
{
    let p = at.index;
    let byte = p / 8;
    if INSIDE {
        return u64::from_be_bytes(eight_inside(body, Offset { byte })) << (p % 8);
    }
    eight_near(body, Offset { byte }) << (p % 8)
}

// Whether 12 bytes are there from a bit's on, where INSIDE asks for them.
pub fn is_inside<const INSIDE: bool>(body: &[u8], at: Bit) -> bool
    ensures { IsTrue result → Ahead INSIDE 12 body.now at.index }
{
    !INSIDE || at.index / 8 + 12 <= body.len()
}

// Whether fewer bits are left than are needed.
pub fn is_short<const INSIDE: bool>(left: usize, needed: usize) -> bool
    requires { IsTrue INSIDE → needed ≤ left }
    ensures short { IsTrue result → left < needed }
    ensures there { IsFalse result → needed ≤ left }
{
    !INSIDE && left < needed
}

// The n highest bits of a number.
pub fn top(s: u64, n: usize) -> u64
    requires { n ≤ 57 }
    ensures { result ≡ number_high 0 (take n (bits_high 64 s)) }
{
    s >> 1 >> (63 - n)
}
