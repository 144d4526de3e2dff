// Numbers in bytes, least significant first: in the fewest that hold them, in 4, in 8, and in as many as are asked for.
#![tactic(auto)]

ghost use Rattle.std.specs.Prelude.{◌≡◌, ◌<◌, ◌+◌, ◌*◌, ◌≤◌, ◌^◌, length, take, drop};
ghost use Rattle.std.proofs.lemmas.List.Edits.{sets};
ghost use Rattle.meaning.specs.Bytes.{bytes_of, number_of, word, word_at};
ghost use Rattle.meaning.specs.DataBytes.{byte_length, fewest, data_bytes};
ghost use Rattle.meaning.specs.Places.{Wrote, part};

use leaves::put;
use meaning::{Offset, Place};

// How many bytes hold x: zero takes one.
pub fn byte_length(x: u32) -> usize
    ensures { result ≡ byte_length x }
{
    let z = u32::leading_zeros(x);
    if z == 32 {
        return 1;
    }
    (4 - z / 8) as usize
}

// The number in 1 to 4 bytes from an offset on.
// kept: byte by byte, since how many there are is known at run time alone, and from_le_bytes needs all four.
pub fn number_at(bytes: &[u8], at: Offset, len: usize) -> u32
    requires { (1 ≤ len) × (len ≤ 4) × (at.byte + len ≤ length bytes.now) }
    ensures { result ≡ number_of (take len (drop at.byte bytes.now)) }
{
    let first = at.byte;
    let a = u32::from(bytes[first]);
    if len == 1 {
        return a;
    }
    let b = a + 256 * u32::from(bytes[first + 1]);
    if len == 2 {
        return b;
    }
    let c = b + 65536 * u32::from(bytes[first + 2]);
    if len == 3 {
        return c;
    }
    c + 16777216 * u32::from(bytes[first + 3])
}

// The number in the 4 bytes from an offset on.
// kept: by from_le_bytes of a slice of four, reading codes 2 and 4 costs a number 0.8 to 1 instruction more (7 to 8 %).
pub fn word_at(bytes: &[u8], at: Offset) -> u32
    requires { at.byte + 4 ≤ length bytes.now }
    ensures { result ≡ word_at bytes.now at.byte }
{
    number_at(bytes, at, 4)
}

// The number in the 8 bytes from an offset on.
pub fn eight_at(bytes: &[u8], at: Offset) -> u64
    requires { at.byte + 8 ≤ length bytes.now }
    ensures { result ≡ number_of (take 8 (drop at.byte bytes.now)) }
{
    let first = at.byte;
    u64::from_le_bytes(<[u8; 8]>::try_from(&bytes[first..first + 8]).unwrap())
}

// How many bytes the data of a list takes.
pub fn data_length(list: &[u32]) -> usize
    requires { 4 * length list.now < 2 ^ 64 }
    ensures { result ≡ length (data_bytes list.now) }
{
    let mut size: usize = 0;
    for &x in list {
        size += byte_length(x);
    }
    size
}

// A number is put in its fewest bytes. Answers where they end.
// kept: its lines stand again in put_near, since one body with a const parameter writes codes 2 and 7 in 4 to 6 % more instructions.
pub fn put_fewest(out: &mut [u8], at: Offset, x: u32) -> Offset
    requires { at.byte + 4 < 2 ^ 64 }
    ensures { (result.byte ≡ at.byte + byte_length x) × (out.new ≡ sets out.old at.byte (fewest x)) }
{
    let start = at.byte;
    if out.len() < start + 4 {
        return put_near(out, at, x);
    }
    out[start] = (x % 256) as u8;
    if x < 256 {
        return Offset { byte: start + 1 };
    }
    out[start + 1] = (x / 256 % 256) as u8;
    if x < 65536 {
        return Offset { byte: start + 2 };
    }
    out[start + 2] = (x / 65536 % 256) as u8;
    if x < 16777216 {
        return Offset { byte: start + 3 };
    }
    out[start + 3] = (x / 16777216 % 256) as u8;
    Offset { byte: start + 4 }
}

// The same near the output's end: each byte is put where it lies within it.
fn put_near(out: &mut [u8], at: Offset, x: u32) -> Offset
    requires { at.byte + 4 < 2 ^ 64 }
    ensures { (result.byte ≡ at.byte + byte_length x) × (out.new ≡ sets out.old at.byte (fewest x)) }
{
    let start = at.byte;
    put(out, at, (x % 256) as u8);
    let second = Offset { byte: start + 1 };
    if x < 256 {
        return second;
    }
    put(out, second, (x / 256 % 256) as u8);
    let third = Offset { byte: start + 2 };
    if x < 65536 {
        return third;
    }
    put(out, third, (x / 65536 % 256) as u8);
    let fourth = Offset { byte: start + 3 };
    if x < 16777216 {
        return fourth;
    }
    put(out, fourth, (x / 16777216 % 256) as u8);
    Offset { byte: start + 4 }
}

// Puts the data of a list, and answers the offset after it.
pub fn put_data(list: &[u32], out: &mut [u8], at: Offset) -> Offset
    requires { at.byte + 4 * length list.now < 2 ^ 63 }
    ensures { Wrote (data_bytes list.now) at.byte out.old out.new result }
{
    let mut to = at;
    for &x in list {
        to = put_fewest(out, to, x);
    }
    to
}

// A number is put in 4 bytes.
pub fn put_word(out: &mut [u8], at: Offset, x: u32)
    requires { at.byte + 4 < 2 ^ 64 }
    ensures { out.new ≡ sets out.old at.byte (word x) }
{
    put_number(out, at, x as usize, 4);
}

// Puts a number in so many bytes.
pub fn put_number(out: &mut [u8], at: Offset, x: usize, bytes: usize)
    requires { at.byte + bytes < 2 ^ 64 }
    ensures { out.new ≡ sets out.old at.byte (bytes_of bytes x) }
{
    let first = at.byte;
    let mut rest = x;
    for i in 0..bytes {
        put(out, Offset { byte: first + i }, (rest % 256) as u8);
        rest = rest / 256;
    }
}

// Stores eight bytes as numbers.
// kept: a loop over an array of them reads code 8's small numbers in 6.6 instructions each instead of 3.2.
pub fn take_eight(body: &[u8], at: Offset, out: &mut [u32], to: Place)
    requires { (at.byte + 8 ≤ length body.now) × (to.number + 8 ≤ length out.old) }
    ensures { out.new ≡ sets out.old to.number (part body.now at.byte 8) }
{
    let start = at.byte;
    let first = to.number;
    let a = u32::from(body[start]);
    let b = u32::from(body[start + 1]);
    let c = u32::from(body[start + 2]);
    let d = u32::from(body[start + 3]);
    let e = u32::from(body[start + 4]);
    let f = u32::from(body[start + 5]);
    let g = u32::from(body[start + 6]);
    let h = u32::from(body[start + 7]);
    out[first] = a;
    out[first + 1] = b;
    out[first + 2] = c;
    out[first + 3] = d;
    out[first + 4] = e;
    out[first + 5] = f;
    out[first + 6] = g;
    out[first + 7] = h;
}
