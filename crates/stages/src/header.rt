// A run stage's header.
ghost use Rattle.std.specs.Prelude.{◌≡◌};
ghost use Rattle.meaning.specs.Says.{says_by};
ghost use Rattle.stages.specs.Header.{header_in, header_told};

use meaning::{Offset, Refusal};
use words::word_at;

// How many runs there are, and where the values body ends.
#[derive(Clone, Copy)]
pub struct Header {
    pub runs: usize,
    pub end: Offset,
}

// A run stage's header: it fits, then its count is at most n, then the values body fits.
#[tactic(auto, unfolding(crate::specs::Header::header_in, meaning::specs::Stages::run_header))]
pub fn header_of(body: &[u8], n: usize) -> Result<Header, Refusal>
    ensures { says_by header_told result ≡ header_in n body.now }
{
    if body.len() < 8 {
        return Err(Refusal::CutShort);
    }
    let runs = word_at(body, Offset { byte: 0 }) as usize;
    if n < runs {
        return Err(Refusal::Broken);
    }
    let size = word_at(body, Offset { byte: 4 }) as usize;
    if body.len() - 8 < size {
        return Err(Refusal::CutShort);
    }
    let end = 8 + size;
    Ok(Header {
        runs,
        end: Offset { byte: end },
    })
}
