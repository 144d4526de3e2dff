// Codewords on their way to an output. Fewer than eight bits wait until they fill a byte, so that the output is never read back.
ghost use Rattle.std.specs.Prelude.{◌≡◌, ◌^◌, ◌<◌, ◌≤◌, length};
ghost use Rattle.meaning.specs.Bits.{bits_high, bit_length, pack};
ghost use Rattle.meaning.specs.Elias.{gamma_bits, delta_bits};
ghost use Rattle.meaning.specs.Limits.{number_limit};
ghost use Rattle.meaning.specs.Places.{Wrote};
ghost use Rattle.elias.specs.Carry.{waiting, Free, Pushed};
ghost use Rattle.elias.specs.Says.{bits_of_word};

use crate::word::Form;
use leaves::put;
use meaning::Offset;

// The last `count` of `bits` wait for the byte at an offset; what stands above them no longer matters.
#[derive(Clone, Copy)]
pub struct Pending {
    pub at: Offset,
    pub bits: u64,
    pub count: usize,
}

// How many bits v has.
fn bit_length(v: u64) -> usize
    requires { (0 < v) × (v ≤ number_limit) }
    ensures { (result ≡ bit_length v) × (0 < result) × (result ≤ 33) }
{
    v.ilog2() as usize + 1
}

impl Pending {
    // The n bits of v follow those that wait, and each byte that is filled is put.
    fn push(self, out: &mut [u8], v: u64, n: usize) -> Pending
        requires { (Free self n) × (v < 2 ^ n) × (n ≤ 33) }
        ensures { Pushed (bits_high n v) self out.old out.new result }
    {
        let bits = (self.bits << n) + v;
        let mut count = self.count + n;
        let mut byte = self.at.byte;
        // kept: the bits go down by eights, and a range of the bytes costs 22 to 38 instructions more a number written
        while 8 <= count {
            count -= 8;
            put(out, Offset { byte }, ((bits >> count) % 256) as u8);
            byte += 1;
        }
        Pending {
            at: Offset { byte },
            bits,
            count,
        }
    }

    // v in gamma: as many zeros as it has bits but one, then its bits.
    fn push_gamma(self, out: &mut [u8], v: u64) -> Pending
        requires { (Free self (length (gamma_bits v))) × (0 < v) × (v ≤ number_limit) }
        ensures { Pushed (gamma_bits v) self out.old out.new result }
    {
        let long = bit_length(v);
        let next = self.push(out, 0, long - 1);
        next.push(out, v, long)
    }

    // v in delta: its length in gamma, then its bits but the leading one.
    fn push_delta(self, out: &mut [u8], v: u64) -> Pending
        requires { (Free self (length (delta_bits v))) × (0 < v) × (v ≤ number_limit) }
        ensures { Pushed (delta_bits v) self out.old out.new result }
    {
        let long = bit_length(v);
        let next = self.push_gamma(out, long as u64);
        next.push(out, v - (1 << (long - 1)), long - 1)
    }

    // v's codeword follows the bits that wait.
    pub fn push_word(self, out: &mut [u8], v: u64, form: Form) -> Pending
        requires { (Free self (length (bits_of_word form v))) × (0 < v) × (v ≤ number_limit) }
        ensures { Pushed (bits_of_word form v) self out.old out.new result }
    {
        match form {
            Form::Gamma => self.push_gamma(out, v),
            Form::Delta => self.push_delta(out, v),
        }
    }

    // The bits that wait are the last: they are put, with spare bits 0. Answers where they end.
    pub fn finish(self, out: &mut [u8]) -> Offset
        requires { Free self 0 }
        ensures { Wrote (pack (waiting self)) self.at.byte out.old out.new result }
    {
        let byte = self.at.byte;
        let count = self.count;
        if count == 0 {
            return Offset { byte };
        }
        put(
            out,
            Offset { byte },
            ((self.bits << (8 - count)) % 256) as u8,
        );
        Offset { byte: byte + 1 }
    }
}
