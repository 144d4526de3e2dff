// Codewords read from a body. INSIDE says that 12 bytes are known to be there, so that no look has to test for the body's end. What is always inlined here
// makes each number read cheaper by 1 to 3 instructions.
ghost use Rattle.std.specs.Prelude.{◌≡◌, ◌+◌, ◌-◌, ◌*◌, ◌/◌, ◌<◌, ◌≤◌, IsTrue, cond, leb, ltb, length, drop};
ghost use Rattle.meaning.specs.Answer.{given, need};
ghost use Rattle.meaning.specs.Bits.{bits_of};
ghost use Rattle.meaning.specs.Elias.{gamma_in, delta_word};
ghost use Rattle.meaning.specs.Limits.{cut_short, broken, most_bytes};
ghost use Rattle.meaning.specs.Says.{refusal_number, says_by};
ghost use Rattle.elias.specs.Ahead.{Ahead};
ghost use Rattle.elias.specs.Says.{codeword_told, word_of};

use crate::input::{is_short, peek, top};
use meaning::{Bit, Refusal};

// The largest value that a codeword may have.
const MOST: u64 = 4294967296;

// The code that codewords are of.
#[derive(Clone, Copy)]
pub enum Form {
    Gamma,
    Delta,
}

// A codeword: the value, and how many bits it takes.
#[derive(Clone, Copy)]
pub struct Codeword {
    pub value: u64,
    pub size: usize,
}

// A value is given where it is not too large.
fn within(value: u64, most: u64, size: usize) -> Result<Codeword, Refusal>
    ensures { says_by codeword_told result ≡ need (leb value most) broken (given (value, size)) }
{
    if value <= most {
        Ok(Codeword { value, size })
    } else {
        Err(Refusal::Broken)
    }
}

// Why more zeros are seen than there may be: so many more bits are there that the one too many is met, or the body ends before it.
fn sort_of_zeros(left: usize, zeros: usize) -> Refusal
    ensures { refusal_number result ≡ cond (ltb zeros left) broken cut_short }
{
    if zeros < left {
        Refusal::Broken
    } else {
        Refusal::CutShort
    }
}

// The value in gamma at a bit, with at most so many zeros, and not above `most`. In 57 bits seen at once are 28 zeros and what stands behind them; with 12
// bytes there a second look, which begins at most 32 bits further on, sees 8.
#[inline(always)]
fn gamma_in<const INSIDE: bool>(
    body: &[u8],
    at: Bit,
    zeros: usize,
    most: u64,
) -> Result<Codeword, Refusal>
    requires { (length body.now ≤ most_bytes) × (zeros ≤ 32) × (Ahead INSIDE 12 body.now at.index) }
    ensures { says_by codeword_told result ≡ gamma_in zeros most (drop at.index (bits_of body.now)) }
{
    let p = at.index;
    let left = (8 * body.len()).saturating_sub(p);
    let seen = peek::<INSIDE>(body, at);
    let z = seen.leading_zeros() as usize;
    if zeros < z {
        return Err(sort_of_zeros(left, zeros));
    }
    let size = 2 * z + 1;
    if is_short::<INSIDE>(left, size) {
        return Err(Refusal::CutShort);
    }
    let value = if z <= 28 {
        top(seen, size)
    } else {
        let index = p + z;
        top(peek::<INSIDE>(body, Bit { index }), z + 1)
    };
    within(value, most, size)
}

// The value in delta at a bit: its length in gamma, then the rest after its leading one. One look shows the 43 bits of the longest.
#[inline(always)]
fn delta_at<const INSIDE: bool>(body: &[u8], at: Bit) -> Result<Codeword, Refusal>
    requires { (length body.now ≤ most_bytes) × (Ahead INSIDE 12 body.now at.index) }
    ensures { says_by codeword_told result ≡ delta_word (drop at.index (bits_of body.now)) }
{
    let long = gamma_in::<INSIDE>(body, at, 5, 33)?;
    let rest = (long.value - 1) as usize;
    let size = long.size + rest;
    let left = (8 * body.len()).saturating_sub(at.index);
    if is_short::<INSIDE>(left, size) {
        return Err(Refusal::CutShort);
    }
    let behind = peek::<INSIDE>(body, at) << long.size;
    within((1 << rest) + top(behind, rest), MOST, size)
}

impl Form {
    // The codeword at a bit, which may lie past the end.
    #[inline(always)]
    pub(crate) fn word_at<const INSIDE: bool>(
        self,
        body: &[u8],
        at: Bit,
    ) -> Result<Codeword, Refusal>
        requires { (length body.now ≤ most_bytes) × (Ahead INSIDE 12 body.now at.index) }
        ensures { says_by codeword_told result ≡ word_of self (drop at.index (bits_of body.now)) }
    {
        match self {
            Form::Gamma => gamma_in::<INSIDE>(body, at, 32, MOST),
            Form::Delta => delta_at::<INSIDE>(body, at),
        }
    }
}
