// The work below the stages: lists live in one work slice, and what a stage makes of a list is made behind it or in its place.
// kept: a list in work is told by its place and its count, since what is made of it goes behind it in the same slice.
#![tactic(auto)]

mod header;

ghost use Rattle.std.specs.Prelude.{◌≡◌, map, ℕ, ◌+◌, ◌-◌, ◌*◌, ◌^◌, ◌≤◌, ◌<◌, min, length, replicate};
ghost use Rattle.std.proofs.lemmas.List.Edits.{sets};
ghost use Rattle.meaning.specs.Limits.{most_numbers, number_limit};
ghost use Rattle.meaning.specs.Lists.{rises, strict, differ, sum};
ghost use Rattle.meaning.specs.Places.{part, Got};
ghost use Rattle.meaning.specs.Sheet.{of_kind};
ghost use Rattle.meaning.specs.Stages.{least, less_before, sums_from, raised, summed, unrolled};
ghost use Rattle.stages.specs.Firsts.{Stored};
ghost use Rattle.stages.specs.Runs.{RunsMade, run_fits, Spread};
ghost use Rattle.stages.specs.Seeks.{Seeks};

pub use header::{Header, header_of};
use meaning::{FIRST_EDITION, Place, RISING, Refusal};

// Whether no number of a list is below the one before.
fn rises_in(list: &[u32]) -> bool
    ensures { result ≡ rises list.now }
{
    list.is_sorted_by(|a, b| a <= b)
}

// Whether each number of a list is above the one before.
fn strict_in(list: &[u32]) -> bool
    ensures { result ≡ strict list.now }
{
    list.is_sorted_by(|a, b| a < b)
}

// Whether a list is of its kind, by the edition.
#[tactic(auto, unfolding(meaning::specs::Sheet::of_kind))]
pub fn of_kind(edition: u8, kind: u8, list: &[u32]) -> bool
    ensures { result ≡ of_kind edition kind list.now }
{
    if kind != RISING {
        return true;
    }
    if edition == FIRST_EDITION {
        return rises_in(list);
    }
    strict_in(list)
}

// Whether the neighbours in a list differ.
pub fn differs_in(list: &[u32]) -> bool
    ensures { result ≡ differ list.now }
{
    list.is_sorted_by(|a, b| a != b)
}

// ---- below writing
// The least number of a list, 0 where it is empty.
pub fn least_of(list: &[u32]) -> u32
    ensures { result ≡ least list.now }
{
    list.iter().copied().min().unwrap_or(0)
}

// The list less m, behind it.
pub fn less_into(work: &mut [u32], from: Place, n: usize, m: u32)
    requires { from.number + 2 * n ≤ length work.old }
    ensures { work.new ≡ sets work.old (from.number + n) (map (λ (x : ℕ). x - m) (part work.old from.number n)) }
{
    let first = from.number;
    for i in 0..n {
        work[first + n + i] = work[first + i].saturating_sub(m);
    }
}

// The list's differences, behind it.
pub fn gaps_into(work: &mut [u32], from: Place, n: usize)
    requires { from.number + 2 * n ≤ length work.old }
    ensures { work.new ≡ sets work.old (from.number + n) (less_before 0 (part work.old from.number n)) }
{
    let first = from.number;
    let mut v = 0;
    for i in 0..n {
        let x = work[first + i];
        work[first + n + i] = x.saturating_sub(v);
        v = x;
    }
}

// The list's runs: their lengths behind it, their values n places further on. Answers how many there are.
pub fn runs_into(work: &mut [u32], from: Place, n: usize) -> usize
    requires { (from.number + 3 * n ≤ length work.old) × (n < 2 ^ 32) }
    ensures { RunsMade (part work.old from.number n) from.number n work.old work.new result }
{
    if n == 0 {
        return 0;
    }
    let first = from.number;
    let mut v = work[first];
    let mut k: u32 = 1;
    let mut j = 0;
    for i in 1..n {
        let x = work[first + i];
        if x == v {
            k += 1;
        } else {
            work[first + n + j] = k;
            work[first + 2 * n + j] = v;
            j += 1;
            v = x;
            k = 1;
        }
    }
    work[first + n + j] = k;
    work[first + 2 * n + j] = v;
    j + 1
}

// ---- below reading and lookup: the first numbers of a list, as many as are right
// Each number of a list becomes its sum with the reference m, up to the first that is too large. Answers how many.
pub fn raise_firsts(work: &mut [u32], from: Place, n: usize, m: u32) -> usize
    requires { from.number + n ≤ length work.old }
    ensures { Stored (map (λ (x : ℕ). m + x) (part work.old from.number n)) from.number work.old work.new result }
{
    let first = from.number;
    for i in 0..n {
        let Some(y) = m.checked_add(work[first + i]) else {
            return i;
        };
        work[first + i] = y;
    }
    n
}

// Each number of a list becomes its sum with all before, up to the first that is too large. Answers how many.
pub fn sum_firsts(work: &mut [u32], from: Place, n: usize) -> usize
    requires { from.number + n ≤ length work.old }
    ensures { Stored (sums_from 0 (part work.old from.number n)) from.number work.old work.new result }
{
    let first = from.number;
    let mut s: u32 = 0;
    for i in 0..n {
        let Some(y) = s.checked_add(work[first + i]) else {
            return i;
        };
        work[first + i] = y;
        s = y;
    }
    n
}

// A list is copied to the start of another.
// kept: for `copy_from_slice` an archive for C needs `memmove` from outside.
pub fn copy_list(list: &[u32], out: &mut [u32])
    requires { length list.now ≤ length out.old }
    ensures { out.new ≡ sets out.old 0 list.now }
{
    for (i, &x) in list.iter().enumerate() {
        out[i] = x;
    }
}

// The sum of a list.
pub fn total_of(list: &[u32]) -> u64
    requires { length list.now ≤ most_numbers }
    ensures { (result ≡ sum list.now) × (result ≤ length list.now * number_limit) }
{
    list.iter().map(|&x| u64::from(x)).sum()
}

// How many runs are laid, and how many numbers they hold.
#[derive(Clone, Copy)]
pub struct Laid {
    pub runs: usize,
    pub numbers: usize,
}

// Whether a run of so many numbers may follow `done` of n: it is not empty, and it ends within n.
#[tactic(auto, unfolding(crate::specs::Runs::run_fits))]
pub fn run_fits(n: usize, done: usize, length: u32) -> bool
    requires { done ≤ n }
    ensures { result ≡ run_fits n done length }
{
    length != 0 && length as usize <= n - done
}

// A run sought in some lengths: which of them it is, or how many numbers stand in their runs if it is none of them.
#[derive(Clone, Copy)]
pub enum Sought {
    At(Place),
    After(Place),
}

// The run that holds a place of n, sought in some lengths, which begin after `done` numbers.
pub fn seek_in(lengths: &[u32], n: usize, place: Place, done: Place) -> Result<Sought, Refusal>
    requires { done.number ≤ n }
    ensures { Seeks lengths.now n place.number done.number result }
{
    let goal = place.number;
    let mut end = done.number;
    for (j, &length) in lengths.iter().enumerate() {
        if !run_fits(n, end, length) {
            return Err(Refusal::Broken);
        }
        end += length as usize;
        if goal < end {
            return Ok(Sought::At(Place { number: j }));
        }
    }
    Ok(Sought::After(Place { number: end }))
}

// The first `goal` numbers of n that k runs make, up to the first run that does not fit: the runs' values stand n places after them, their lengths 2n.
pub fn spread(work: &mut [u32], from: Place, n: usize, goal: usize, k: usize) -> Laid
    requires { (from.number + 3 * n ≤ length work.old) × (goal ≤ n) × (k ≤ n) }
    ensures { Spread (part work.old (from.number + n) k) (part work.old (from.number + 2 * n) k) n goal from.number
        work.old work.new result }
{
    let first = from.number;
    let mut done = 0;
    for j in 0..k {
        let length = work[first + 2 * n + j];
        if goal <= done || !run_fits(n, done, length) {
            return Laid {
                runs: j,
                numbers: done,
            };
        }
        let v = work[first + n + j];
        let next = done + length as usize;
        work[first + done..first + next.min(goal)].fill(v);
        done = next;
    }
    Laid {
        runs: k,
        numbers: done,
    }
}

// ---- below reading: all of them
// Each number of a list becomes its sum with the reference m, which must then be the least.
pub fn raise(work: &mut [u32], from: Place, n: usize, m: u32) -> Result<usize, Refusal>
    requires { from.number + n ≤ length work.old }
    ensures { Got (raised m (part work.old from.number n)) from.number work.old work.new result }
{
    if raise_firsts(work, from, n, m) < n {
        return Err(Refusal::Broken);
    }
    let first = from.number;
    if least_of(&work[first..first + n]) == m {
        return Ok(n);
    }
    Err(Refusal::Broken)
}

// Each number of a list becomes its sum with all before.
pub fn sum_up(work: &mut [u32], from: Place, n: usize) -> Result<usize, Refusal>
    requires { from.number + n ≤ length work.old }
    ensures { Got (summed (part work.old from.number n)) from.number work.old work.new result }
{
    if sum_firsts(work, from, n) < n {
        return Err(Refusal::Broken);
    }
    Ok(n)
}

// k runs become a list of n numbers: their values stand n places after it, their lengths 2n.
pub fn unroll_into(work: &mut [u32], from: Place, n: usize, k: usize) -> Result<usize, Refusal>
    requires { (from.number + 3 * n ≤ length work.old) × (k ≤ n) }
    ensures { Got (unrolled n (part work.old (from.number + n) k) (part work.old (from.number + 2 * n) k))
        from.number work.old work.new result }
{
    let values = from.number + n;
    if !differs_in(&work[values..values + k]) {
        return Err(Refusal::Broken);
    }
    let laid = spread(work, from, n, n, k);
    if laid.runs < k {
        return Err(Refusal::Broken);
    }
    if laid.numbers < n {
        return Err(Refusal::Broken);
    }
    Ok(n)
}
