// The parts of a body, its bits, and the number in some of its data bytes.
ghost use Rattle.std.specs.Prelude.{◌≡◌, ◌+◌, ◌<◌, ◌≤◌, ◌^◌, min, eqb, get_or, drop, IfOk};
ghost use Rattle.meaning.specs.Answer.{given, need};
ghost use Rattle.meaning.specs.Bits.{zeros_first};
ghost use Rattle.meaning.specs.Bytes.{word_at};
ghost use Rattle.meaning.specs.Direct.{sums_at, data_at, sum_count, parts_fit, flags, sum_at, number_in, zeros_before};
ghost use Rattle.meaning.specs.Limits.{cut_short};
ghost use Rattle.meaning.specs.Places.{Below};
ghost use Rattle.meaning.specs.Says.{says, says_by};
ghost use Rattle.direct.specs.Parts.{Fit, next_told, next_in};

use meaning::{Bit, Offset, Refusal};
use words::{byte_length, number_at, word_at};

// A body that its parts' ends fit, and the number of its data bytes.
#[derive(Clone, Copy)]
pub struct Parts<'a> {
    pub body: &'a [u8],
    pub data_bytes: usize,
    pub ghost fit: { Fit body.now data_bytes },
    pub ghost small: { Below 256 body.now },
}

// One number read: its value, and the data byte after it.
#[derive(Clone, Copy)]
pub struct Next {
    pub number: u32,
    pub end: Bit,
}

// Where the sums begin, by the number of data bytes.
pub fn sums_at(d: usize) -> usize
    requires { d < 2 ^ 63 }
    ensures { result ≡ sums_at d }
{
    // kept: `div_ceil` takes some instructions more, at each call.
    4 + (d + 7) / 8
}

// Where the data begins.
pub fn data_at(d: usize) -> usize
    requires { d < 2 ^ 63 }
    ensures { result ≡ data_at d }
{
    sums_at(d) + 2 * (d / 512)
}

// Whether all parts' ends fit the body.
pub fn parts_fit(body: &[u8]) -> bool
    ensures { result ≡ parts_fit body.now }
{
    Parts::of(body).is_ok()
}

impl<'a> Parts<'a> {
    // All parts' ends must fit the body.
    pub fn of(body: &'a [u8]) -> Result<Parts<'a>, Refusal>
        ensures told { says_by (λ p. p.data_bytes) result ≡ need (parts_fit body.now) cut_short (given (word_at body.now 0)) }
        ensures same { IfOk result (λ p. p.body.now ≡ body.now) }
    {
        let len = body.len();
        if len < 4 {
            return Err(Refusal::CutShort);
        }
        let data_bytes = word_at(body, Offset { byte: 0 }) as usize;
        if len < data_at(data_bytes) + data_bytes {
            return Err(Refusal::CutShort);
        }
        Ok(Parts { body, data_bytes })
    }

    // Whether a data byte ends no number: its bit is 0.
    fn clear(&self, i: Bit) -> bool
        requires { i.index < self.now.data_bytes }
        ensures { result ≡ eqb (get_or (flags self.now.body.now) i.index 0) 0 }
    {
        let bit = i.index;
        let byte = self.body[4 + bit / 8];
        (byte >> (bit % 8)) % 2 == 0
    }

    // How many zeros come first from a bit on, at most 4.
    fn zeros_from(&self, i: Bit) -> usize
        requires { i.index ≤ self.now.data_bytes }
        ensures { result ≡ min 4 (zeros_first (drop i.index (flags self.now.body.now))) }
    {
        for zeros in 0..4 {
            let index = i.index + zeros;
            if self.data_bytes <= index {
                return zeros;
            }
            if !self.clear(Bit { index }) {
                return zeros;
            }
        }
        4
    }

    // How many zeros stand directly before a bit, at most 4.
    pub fn zeros_before(&self, i: Bit) -> usize
        requires { i.index ≤ self.now.data_bytes }
        ensures { result ≡ zeros_before 4 (flags self.now.body.now) i.index }
    {
        let end = i.index;
        for zeros in 0..4 {
            if end <= zeros {
                return zeros;
            }
            let index = end - zeros - 1;
            if !self.clear(Bit { index }) {
                return zeros;
            }
        }
        4
    }

    // What the body says that a stretch's sum is.
    pub fn sum_at(&self, s: usize) -> usize
        requires { s < sum_count self.now.data_bytes }
        ensures { result ≡ sum_at self.now.body.now s }
    {
        let byte = sums_at(self.data_bytes) + 2 * s;
        number_at(self.body, Offset { byte }, 2) as usize
    }

    // The number in so many data bytes, the first of which is data byte i: at most 4, and the fewest.
    pub fn number_in(&self, i: Bit, len: usize) -> Result<u32, Refusal>
        requires { (1 ≤ len) × (i.index + len ≤ self.now.data_bytes) }
        ensures { says result ≡ number_in self.now.body.now i.index len }
    {
        if 4 < len {
            return Err(Refusal::Broken);
        }
        let byte = data_at(self.data_bytes) + i.index;
        let x = number_at(self.body, Offset { byte }, len);
        if byte_length(x) != len {
            return Err(Refusal::Broken);
        }
        Ok(x)
    }

    // The number whose first byte is data byte i: a bit from there on ends it.
    pub fn next_number(&self, i: Bit) -> Result<Next, Refusal>
        ensures { says_by next_told result ≡ next_in self.now.body.now i.index }
    {
        let d = self.data_bytes;
        let first = i.index;
        if d <= first {
            return Err(Refusal::Broken);
        }
        let len = self.zeros_from(i) + 1;
        let index = first + len;
        if d < index {
            return Err(Refusal::Broken);
        }
        let number = self.number_in(i, len)?;
        Ok(Next {
            number,
            end: Bit { index },
        })
    }
}
