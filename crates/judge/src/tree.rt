// What is said of the plan that begins at an offset, stage by stage; the stages that may still come fall with each.
ghost use Rattle.std.specs.Prelude.{◌≡◌, ◌≤◌};
ghost use Rattle.meaning.specs.Codes.{code_of, worst_groups};
ghost use Rattle.meaning.specs.Direct.{worst_direct};
ghost use Rattle.meaning.specs.Limits.{most_numbers, most_stages};
ghost use Rattle.meaning.specs.Plan.{plan_at, passes, worst_plan};
ghost use Rattle.judge.specs.Stage.{good_end};

use crate::stage::{Stage, plan_end, stage_at};
use meaning::{ANY, Offset, RISING};

// Where it ends, if it is well formed up to there.
// kept beside `plan_end`: a malformed plan ends too, and its worst size goes by that.
pub fn good_end(plan: &[u8], at: Offset, stages: usize) -> Option<Offset>
    ensures { result ≡ good_end (plan_at stages plan.now at.byte) at.byte }
{
    let mut here = at;
    let mut left = stages;
    // A turn goes on to a stage's last plan: a call for each stage would take stack for each.
    loop {
        match stage_at(plan, here, left) {
            Stage::Bad => return None,
            Stage::Code(_) => return Some(Offset {
                byte: here.byte + 1,
            }),
            Stage::Reference(next, less) | Stage::Differences(next, less) => {
                here = next;
                left = less;
            }
            Stage::Runs(next, less) => {
                here = good_end(plan, next, less)?;
                left = less;
            }
        }
    }
}

// Whether it passes for a list of a kind: differences need a rising list, and what they and a run's lengths hand on is of any kind.
pub fn passes_plan(plan: &[u8], at: Offset, stages: usize, kind: u8) -> bool
    ensures { result ≡ passes kind (plan_at stages plan.now at.byte) }
{
    match stage_at(plan, at, stages) {
        Stage::Bad => false,
        Stage::Code(_) => true,
        Stage::Reference(next, less) => passes_plan(plan, next, less, kind),
        Stage::Differences(next, less) => kind == RISING && passes_plan(plan, next, less, ANY),
        // the second plan is sought only where the first passes
        Stage::Runs(next, less) => {
            passes_plan(plan, next, less, kind)
                && {
                    let second = plan_end(plan, next, less);
                    passes_plan(plan, second, less, ANY)
                }
        }
    }
}

// Codes 2, 4 and 7: a control byte for every four numbers.
fn worst_groups(n: usize) -> usize
    requires { n ≤ most_numbers }
    ensures { result ≡ worst_groups n }
{
    4 * n + n.div_ceil(4)
}

// Code 8: a header, a bit for each data byte, a sum for each full stretch of them, and the data.
fn worst_direct(n: usize) -> usize
    requires { n ≤ most_numbers }
    ensures { result ≡ worst_direct n }
{
    4 + n.div_ceil(2) + 2 * (n / 128) + 4 * n
}

// The worst size of n numbers by a code. kept as a choice by number: every number has a size, and the codes' own crates stand above.
pub fn worst_code(code: u8, n: usize) -> usize
    requires { n ≤ most_numbers }
    ensures { result ≡ (code_of code).worst n }
{
    match code {
        1 => 5 * n,
        3 => n.div_ceil(2) * 9,
        5 => (65 * n).div_ceil(8),
        6 => (43 * n).div_ceil(8),
        8 => worst_direct(n),
        _ => worst_groups(n),
    }
}

// The worst size of n numbers by the plan.
pub fn worst_plan(plan: &[u8], at: Offset, stages: usize, n: usize) -> usize
    requires { (stages ≤ most_stages) × (n ≤ most_numbers) }
    ensures { result ≡ worst_plan (plan_at stages plan.now at.byte) n }
{
    match stage_at(plan, at, stages) {
        Stage::Bad => 0,
        Stage::Code(code) => worst_code(code, n),
        Stage::Reference(next, less) => 4 + worst_plan(plan, next, less, n),
        Stage::Differences(next, less) => worst_plan(plan, next, less, n),
        Stage::Runs(next, less) => {
            let second = plan_end(plan, next, less);
            let values = worst_plan(plan, next, less, n);
            let lengths = worst_plan(plan, second, less, n);
            8 + (values + lengths)
        }
    }
}
