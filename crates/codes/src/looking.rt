// What lookups ask of any code: from the first unit through the one that holds the place, looking at nothing after; or directly. Numbers go by stretches
// into a small array, or straight into work.
ghost use Rattle.std.specs.Prelude.{◌≡◌, ◌+◌, ◌<◌, ◌≤◌};
ghost use Rattle.meaning.specs.Codes.{code_of, look_code};
ghost use Rattle.meaning.specs.Says.{says, says_by};
ghost use Rattle.meaning.specs.Stages.{seek};
ghost use Rattle.codes.specs.Started.{run_told};
ghost use Rattle.codes.specs.Firsts.{total, Looked, Space, Firsts};

use crate::First;
use crate::directly::{firsts_direct, seek_direct, total_direct};
use crate::dispatch::{is_direct, start_at, unit_most};
use crate::stretch::stretch;
use meaning::{Place, Refusal};
use stages::{Sought, seek_in, total_of};

// The number at a place of n.
pub fn lookup_code(code: u8, body: &[u8], n: usize, place: Place) -> Result<u32, Refusal>
    requires { Looked body.now n place.number }
    ensures { says result ≡ look_code (code_of code) body.now n place.number }
{
    if is_direct(code) {
        return direct::lookup(body, place);
    }
    let goal = place.number;
    let mut at = start_at(code, body, n)?;
    let most = unit_most(code);
    let mut numbers = [0u32; 128];
    let start = Place { number: 0 };
    let mut passed: usize = 0;
    // A turn passes a stretch of units, as long as it is.
    loop {
        let here = goal - passed;
        let room = 128usize.min(here + most);
        let taken = stretch(code, body, n - passed, at, &mut numbers, start, room)?;
        if here < taken.count {
            let number = numbers[here];
            return Ok(number);
        }
        passed += taken.count;
        at = taken.next;
    }
}

// The sum of the numbers through a place of n.
pub fn total_code(code: u8, body: &[u8], n: usize, place: Place) -> Result<u64, Refusal>
    requires { Looked body.now n place.number }
    ensures { says result ≡ total (look_code (code_of code) body.now n) (place.number + 1) }
{
    if is_direct(code) {
        return total_direct(body, n, place);
    }
    let goal = place.number;
    let mut at = start_at(code, body, n)?;
    let most = unit_most(code);
    let mut numbers = [0u32; 192];
    let start = Place { number: 0 };
    let mut passed: usize = 0;
    let mut s: u64 = 0;
    // A turn passes a stretch of units.
    loop {
        let here = goal - passed;
        let room = 192usize.min(here + most);
        let taken = stretch(code, body, n - passed, at, &mut numbers, start, room)?;
        if here < taken.count {
            let through = s + total_of(&numbers[..here + 1]);
            return Ok(through);
        }
        s += total_of(&numbers[..taken.count]);
        passed += taken.count;
        at = taken.next;
    }
}

// The numbers at the first k places of n go to work from a place on, as far as no place refuses.
pub fn firsts_code(
    code: u8,
    body: &[u8],
    n: usize,
    k: usize,
    work: &mut [u32],
    from: Place,
) -> First
    requires { Space body.now n k work.old from.number }
    ensures { Firsts (look_code (code_of code) body.now n) k from.number work.old work.new result }
{
    if is_direct(code) {
        return firsts_direct(body, n, k, work, from);
    }
    let to = from.number;
    if k == 0 {
        return First {
            count: 0,
            stop: None,
        };
    }
    let mut at = match start_at(code, body, n) {
        Ok(first) => first,
        Err(e) => {
            return First {
                count: 0,
                stop: Some(e),
            };
        }
    };
    let mut passed: usize = 0;
    // A turn passes a stretch of units.
    while passed < k {
        let place = to + passed;
        let room = k - passed;
        let went = stretch(
            code,
            body,
            n - passed,
            at,
            work,
            Place { number: place },
            room,
        );
        match went {
            Ok(taken) => {
                passed += room.min(taken.count);
                at = taken.next;
            }
            Err(e) => {
                return First {
                    count: passed,
                    stop: Some(e),
                };
            }
        }
    }
    First {
        count: k,
        stop: None,
    }
}

// The run that holds a place of n, by the lengths of so many runs.
pub fn seek_code(
    code: u8,
    body: &[u8],
    runs: usize,
    n: usize,
    place: Place,
) -> Result<Place, Refusal>
    requires { (Looked body.now n place.number) × (runs ≤ n) }
    ensures { says_by run_told result ≡ seek (look_code (code_of code) body.now runs) n place.number runs 0 0 }
{
    if is_direct(code) {
        return seek_direct(body, runs, n, place);
    }
    if runs == 0 {
        return Err(Refusal::Broken);
    }
    let goal = place.number;
    let mut at = start_at(code, body, runs)?;
    let mut lengths = [0u32; 32];
    let start = Place { number: 0 };
    let mut passed: usize = 0;
    let mut done = start;
    // A turn passes a stretch of units.
    while passed < runs {
        // Each run holds a number at least, so no more lengths are needed than places are left; a unit's are.
        let room = 32usize.min(goal - done.number + 16);
        let taken = stretch(code, body, runs - passed, at, &mut lengths, start, room)?;
        let sought = seek_in(&lengths[..taken.count], n, place, done)?;
        match sought {
            Sought::At(j) => {
                let run = passed + j.number;
                return Ok(Place { number: run });
            }
            Sought::After(end) => {
                passed += taken.count;
                at = taken.next;
                done = end;
            }
        }
    }
    Err(Refusal::Broken)
}
