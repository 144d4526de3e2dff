// Words of 64 bits, their ones counted and found. A word that the slice ends in has zeros above.
ghost use Rattle.std.specs.Prelude.{◌≡◌, ◌+◌, ◌*◌, ◌<◌, ◌^◌, length, take, drop};
ghost use Rattle.meaning.specs.Answer.{given};
ghost use Rattle.meaning.specs.Bits.{bits_low, low_bits};
ghost use Rattle.meaning.specs.Bytes.{number_of};
ghost use Rattle.meaning.specs.Limits.{no_place};
ghost use Rattle.meaning.specs.Lists.{sum};
ghost use Rattle.meaning.specs.Rank.{ones_before, one_at};
ghost use Rattle.bits.specs.Passes.{Passes};

use meaning::Offset;
use words::eight_at;

// The words before the one that holds a one, and how many ones they have.
#[derive(Clone, Copy)]
pub struct Passed {
    pub words: usize,
    pub ones: usize,
}

// The number in the last bytes of a slice, fewer than 8, from an offset on. Apart, since within the loops over words it takes their registers.
#[inline(never)]
fn word_end(bytes: &[u8], at: Offset) -> u64
    requires { length bytes.now < at.byte + 8 }
    ensures { result ≡ number_of (take 8 (drop at.byte bytes.now)) }
{
    let mut x: u64 = 0;
    for i in (at.byte..bytes.len()).rev() {
        x = 256 * x + u64::from(bytes[i]);
    }
    x
}

// The number in the 8 bytes from an offset on, or in as many as there are.
pub fn word_near(bytes: &[u8], at: Offset) -> u64
    ensures { result ≡ number_of (take 8 (drop at.byte bytes.now)) }
{
    if at.byte < bytes.len().saturating_sub(7) {
        return eight_at(bytes, at);
    }
    word_end(bytes, at)
}

// How many ones so many words have from an offset on.
pub fn ones_in(bytes: &[u8], from: Offset, words: usize) -> usize
    requires { from.byte + 8 * words < 2 ^ 32 }
    ensures { result ≡ ones_before (low_bits (drop from.byte bytes.now)) (64 * words) }
{
    let first = from.byte;
    let mut ones: usize = 0;
    for i in 0..words {
        let byte = first + 8 * i;
        let word = word_near(bytes, Offset { byte });
        ones += word.count_ones() as usize;
    }
    ones
}

// The words, of so many from an offset on, that come before the one that holds the k-th one; where none does, how many ones they all have. Every word is
// counted.
pub fn pass_words(bytes: &[u8], from: Offset, words: usize, k: usize) -> Result<Passed, usize>
    requires { from.byte + 8 * words < 2 ^ 32 }
    ensures { Passes (low_bits (drop from.byte bytes.now)) words k result }
{
    let first = from.byte;
    let mut passed = Passed { words: 0, ones: 0 };
    let mut through: usize = 0;
    for i in 0..words {
        let byte = first + 8 * i;
        let word = word_near(bytes, Offset { byte });
        through += word.count_ones() as usize;
        if through <= k {
            passed = Passed {
                words: i + 1,
                ones: through,
            };
        }
    }
    if passed.words == words {
        return Err(passed.ones);
    }
    Ok(passed)
}

// The bit of the k-th one of a word, which has it: half of what is left is passed or not, six times.
pub fn bit_in(word: u64, k: usize) -> usize
    requires { k < sum (bits_low 64 word) }
    ensures { one_at no_place k (bits_low 64 word) ≡ given result }
{
    let mut rest = word;
    let mut left = k;
    let mut bit: usize = 0;
    for half in [32, 16, 8, 4, 2, 1] {
        let low = rest % (1 << half);
        let ones = low.count_ones() as usize;
        if ones <= left {
            left -= ones;
            bit += half;
            rest >>= half;
        }
    }
    bit
}
