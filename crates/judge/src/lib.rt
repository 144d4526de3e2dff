// Plans: judged for a kind, and their worst size. A plan of any length and any bytes is answered.
#![tactic(auto)]

ghost use Rattle.std.specs.Prelude.{◌≡◌, eqb, drop};
ghost use Rattle.meaning.specs.Promises.{Judges, Sizes};
ghost use Rattle.meaning.specs.Lists.{all};
ghost use Rattle.meaning.specs.Plan.{well_formed, judge_plan};
ghost use Rattle.meaning.specs.Says.{says};

use crate::tree::{good_end, passes_plan, worst_plan};
use meaning::{MOST_NUMBERS, Offset, PLAN_BYTES, RISING, Refusal};

pub mod stage;
pub mod tree;

// So many stages may stand over a code: depth 4, the code counting 1.
pub const MOST_STAGES: usize = 3;

// Whether every byte from an offset on is 0.
pub fn blank_from(plan: &[u8], at: Offset) -> bool
    ensures { result ≡ all (eqb 0) (drop at.byte plan.now) }
{
    plan.iter().skip(at.byte).all(|&b| b == 0)
}

// Whether a plan has its length, is good to its end and blank after it.
pub fn well_formed(plan: &[u8]) -> bool
    ensures { result ≡ well_formed plan.now }
{
    plan.len() == PLAN_BYTES
        && good_end(plan, Offset { byte: 0 }, MOST_STAGES).is_some_and(|end| blank_from(plan, end))
}

// A plan judged for a kind that the caller knows: malformed, then not passed.
pub fn judge_plan(kind: u8, plan: &[u8]) -> Result<(), Refusal>
    ensures { says result ≡ judge_plan kind plan.now }
{
    if !well_formed(plan) {
        Err(Refusal::Malformed)
    } else if !passes_plan(plan, Offset { byte: 0 }, MOST_STAGES, kind) {
        Err(Refusal::Unfit)
    } else {
        Ok(())
    }
}

// The judge asked alone: a kind above 1 is refused first.
pub fn judge(kind: u8, plan: &[u8]) -> Result<(), Refusal>
    ensures { Judges kind plan.now result }
{
    let known = kind <= RISING;
    if !known {
        return Err(Refusal::BadOrders);
    }
    judge_plan(kind, plan)
}

// The worst size asked alone: a malformed plan is refused, then n above 1,024.
pub fn worst_size(plan: &[u8], n: usize) -> Result<usize, Refusal>
    ensures { Sizes plan.now n result }
{
    if !well_formed(plan) {
        return Err(Refusal::Malformed);
    }
    if MOST_NUMBERS < n {
        return Err(Refusal::BadOrders);
    }
    Ok(worst_plan(plan, Offset { byte: 0 }, MOST_STAGES, n))
}
