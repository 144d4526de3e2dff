// Rank and select over the bits of a lent slice, lowest bit of each byte first, by whole words of 64 bits; and what code 8 asks of a stretch of bits.
#![tactic(auto)]

pub mod words_of;

ghost use Rattle.std.specs.Prelude.{◌≡◌, ◌+◌, ◌*◌, ◌<◌, ◌^◌, take, drop};
ghost use Rattle.meaning.specs.Bits.{low_bits};
ghost use Rattle.meaning.specs.Promises.{Ranks, Selects};
ghost use Rattle.meaning.specs.Limits.{no_place};
ghost use Rattle.meaning.specs.Rank.{one_at};
ghost use Rattle.meaning.specs.Says.{says_by, bit_told};

use meaning::{Bit, MOST_BYTES, Offset, Refusal};
use words_of::{bit_in, ones_in, pass_words, word_near};

// How many ones stand before a bit: those of the words before its own, and those below it in its own.
pub fn rank(bytes: &[u8], bit: Bit) -> Result<usize, Refusal>
    ensures { Ranks bytes.now bit.index result }
{
    let len = bytes.len();
    if MOST_BYTES < len {
        return Err(Refusal::NoSheet);
    }
    let index = bit.index;
    if 8 * len < index {
        return Err(Refusal::NoPlace);
    }
    let words = index / 64;
    let before = ones_in(bytes, Offset { byte: 0 }, words);
    let own = word_near(bytes, Offset { byte: 8 * words });
    let below = own % (1 << (index % 64));
    let ones = before + below.count_ones() as usize;
    Ok(ones)
}

// The bit of the k-th one in so many words from an offset on, counted from the offset's first bit. Every word is counted, so that the cost does not
// depend on k.
pub fn one_in(bytes: &[u8], from: Offset, words: usize, k: usize) -> Result<Bit, Refusal>
    requires { from.byte + 8 * words < 2 ^ 32 }
    ensures { says_by bit_told result ≡ one_at no_place k (take (64 * words) (low_bits (drop from.byte bytes.now))) }
{
    let Ok(passed) = pass_words(bytes, from, words, k) else {
        return Err(Refusal::NoPlace);
    };
    let byte = from.byte + 8 * passed.words;
    let word = word_near(bytes, Offset { byte });
    let index = 64 * passed.words + bit_in(word, k - passed.ones);
    Ok(Bit { index })
}

// The bit of the k-th one: stretches of 8 words are passed until one holds it.
pub fn select(bytes: &[u8], k: usize) -> Result<Bit, Refusal>
    ensures { Selects bytes.now k result }
{
    let len = bytes.len();
    if MOST_BYTES < len {
        return Err(Refusal::NoSheet);
    }
    let mut left = k;
    for stretch in 0..len.div_ceil(64) {
        let byte = 64 * stretch;
        let from = Offset { byte };
        let ones = ones_in(bytes, from, 8);
        if left < ones {
            let bit = one_in(bytes, from, 8, left)?;
            let index = 8 * byte + bit.index;
            return Ok(Bit { index });
        }
        left -= ones;
    }
    Err(Refusal::NoPlace)
}
