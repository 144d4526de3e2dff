// What lookups ask of code 8: each place by itself, by the sums that it finds.
ghost use Rattle.std.specs.Prelude.{◌≡◌, ◌+◌, ◌≤◌};
ghost use Rattle.meaning.specs.Direct.{look_direct};
ghost use Rattle.meaning.specs.Says.{says, says_by};
ghost use Rattle.meaning.specs.Stages.{seek};
ghost use Rattle.codes.specs.Firsts.{total, Looked, Space, Firsts};
ghost use Rattle.codes.specs.Started.{run_told};

use crate::First;
use meaning::{Place, Refusal};
use stages::run_fits;

// The sum of the numbers through a place of n.
pub fn total_direct(body: &[u8], n: usize, place: Place) -> Result<u64, Refusal>
    requires { Looked body.now n place.number }
    ensures { says result ≡ total (look_direct body.now) (place.number + 1) }
{
    let mut s: u64 = 0;
    for number in 0..place.number + 1 {
        s += u64::from(direct::lookup(body, Place { number })?);
    }
    Ok(s)
}

// The numbers at the first k places of n go to work from a place on, as far as no place refuses.
pub fn firsts_direct(body: &[u8], n: usize, k: usize, work: &mut [u32], from: Place) -> First
    requires { Space body.now n k work.old from.number }
    ensures { Firsts (look_direct body.now) k from.number work.old work.new result }
{
    let to = from.number;
    for number in 0..k {
        match direct::lookup(body, Place { number }) {
            Ok(x) => {
                work[to + number] = x;
            }
            Err(e) => {
                return First {
                    count: number,
                    stop: Some(e),
                };
            }
        }
    }
    First {
        count: k,
        stop: None,
    }
}

// The run that holds a place of n, by the lengths of so many runs.
pub fn seek_direct(body: &[u8], runs: usize, n: usize, place: Place) -> Result<Place, Refusal>
    requires { (Looked body.now n place.number) × (runs ≤ n) }
    ensures { says_by run_told result ≡ seek (look_direct body.now) n place.number runs 0 0 }
{
    let goal = place.number;
    let mut done: usize = 0;
    for number in 0..runs {
        let length = direct::lookup(body, Place { number })?;
        if !run_fits(n, done, length) {
            return Err(Refusal::Broken);
        }
        done += length as usize;
        if goal < done {
            return Ok(Place { number });
        }
    }
    Err(Refusal::Broken)
}
