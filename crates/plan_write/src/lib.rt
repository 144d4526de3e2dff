// Writing a list by a plan. The lists live in one slice, work: the list from a place on, scratch after it.
// Bytes are put where they lie within the output, so a call with an empty output tells the size and writes nothing.
// kept: a list in work is told by its place and its count, since the inner plan's list is made behind it in the same slice.
#![tactic(auto)]

ghost use Rattle.std.specs.Prelude.{◌+◌, ◌*◌, ◌^◌, ◌≤◌, ◌<◌, length, take};
ghost use Rattle.meaning.specs.Limits.{most_numbers};
ghost use Rattle.meaning.specs.Places.{part};
ghost use Rattle.meaning.specs.Plan.{plan_at, plan_of, runs_at};
ghost use Rattle.plan_write.specs.Written.{Fit, FitRuns, Written};

use codes::write_code;
use judge::MOST_STAGES;
use judge::stage::{Stage, plan_end, stage_at};
use meaning::{Offset, Place};
use stages::{gaps_into, least_of, less_into, runs_into};
use words::put_word;

// Writes n numbers by the plan that begins at an offset of the plan's bytes. Answers where their bytes end.
#[cycle(write_plan_write_runs)]
pub fn write_plan(
    plan: &[u8],
    pos: Offset,
    stages: usize,
    work: &mut [u32],
    from: Place,
    n: usize,
    out: &mut [u8],
    at: Offset,
) -> Offset
    requires { Fit stages n from.number at.byte (length work.old) }
    ensures { Written (plan_at stages plan.now pos.byte) (part work.old from.number n) (from.number + n) at.byte
        work.old work.new out.old out.new result }
{
    match stage_at(plan, pos, stages) {
        Stage::Bad => at,
        Stage::Code(code) => {
            let first = from.number;
            write_code(code, &work[first..first + n], out, at)
        }
        Stage::Reference(next, less) => {
            let first = from.number;
            let start = at.byte;
            let m = least_of(&work[first..first + n]);
            put_word(out, at, m);
            less_into(work, from, n, m);
            write_plan(
                plan,
                next,
                less,
                work,
                Place { number: first + n },
                n,
                out,
                Offset { byte: start + 4 },
            )
        }
        Stage::Differences(next, less) => {
            let first = from.number;
            gaps_into(work, from, n);
            write_plan(
                plan,
                next,
                less,
                work,
                Place { number: first + n },
                n,
                out,
                at,
            )
        }
        Stage::Runs(next, less) => write_runs(plan, next, less, work, from, n, out, at),
    }
}

// By a run stage whose two inner plans begin at an offset: the values list by the first, the lengths list by the second.
#[cycle(write_plan_write_runs)]
fn write_runs(
    plan: &[u8],
    pos: Offset,
    stages: usize,
    work: &mut [u32],
    from: Place,
    n: usize,
    out: &mut [u8],
    at: Offset,
) -> Offset
    requires { FitRuns stages n from.number at.byte (length work.old) }
    ensures { Written (runs_at stages plan.now pos.byte) (part work.old from.number n) (from.number + n) at.byte
        work.old work.new out.old out.new result }
{
    let first = from.number;
    let start = at.byte;
    let second = plan_end(plan, pos, stages);
    let k = runs_into(work, from, n);
    put_word(out, at, k as u32);
    let end = write_plan(
        plan,
        pos,
        stages,
        work,
        Place {
            number: first + 2 * n,
        },
        k,
        out,
        Offset { byte: start + 8 },
    );
    let stop = end.byte;
    put_word(out, Offset { byte: start + 4 }, (stop - (start + 8)) as u32);
    write_plan(
        plan,
        second,
        stages,
        work,
        Place { number: first + n },
        k,
        out,
        end,
    )
}

// Writes the first n numbers of work by a plan; 7n numbers of work are enough.
pub fn write_list(plan: &[u8], work: &mut [u32], n: usize, out: &mut [u8], at: Offset) -> Offset
    requires { (n ≤ most_numbers) × (7 * n ≤ length work.old) × (at.byte < 2 ^ 62) }
    ensures { Written (plan_of plan.now) (take n work.old) n at.byte work.old work.new
        out.old out.new result }
{
    write_plan(
        plan,
        Offset { byte: 0 },
        MOST_STAGES,
        work,
        Place { number: 0 },
        n,
        out,
        at,
    )
}
