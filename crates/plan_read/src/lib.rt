// Strict reading by a plan: the numbers go to work from a place on, scratch after them; bodies of inner plans are parts of the lent slice.
#![tactic(auto)]

ghost use Rattle.std.specs.Prelude.{suc, ◌+◌, ◌*◌, ◌≤◌, length};
ghost use Rattle.meaning.specs.Limits.{most_bytes, most_numbers};
ghost use Rattle.meaning.specs.Places.{Got};
ghost use Rattle.meaning.specs.Plan.{plan_at, plan_of, runs_at};
ghost use Rattle.meaning.specs.Stages.{read};
ghost use Rattle.stages.specs.Room.{Fits};

use codes::read_code;
use judge::MOST_STAGES;
use judge::stage::{Stage, plan_end, stage_at};
use meaning::{Offset, Place, Refusal};
use stages::{header_of, raise, sum_up, unroll_into};
use words::word_at;

// Reads n numbers by the plan that begins at an offset of the plan's bytes.
#[cycle(read_plan_read_runs)]
pub fn read_plan(
    plan: &[u8],
    pos: Offset,
    stages: usize,
    body: &[u8],
    n: usize,
    work: &mut [u32],
    from: Place,
) -> Result<usize, Refusal>
    requires { Fits body.now work.old stages n from.number }
    ensures { Got (read (plan_at stages plan.now pos.byte) body.now n) from.number work.old
        work.new result }
{
    match stage_at(plan, pos, stages) {
        Stage::Bad => Err(Refusal::Broken),
        Stage::Code(code) => read_code(code, body, n, work, from),
        Stage::Reference(next, less) => {
            if body.len() < 4 {
                return Err(Refusal::CutShort);
            }
            let m = word_at(body, Offset { byte: 0 });
            read_plan(plan, next, less, &body[4..], n, work, from)?;
            raise(work, from, n, m)
        }
        Stage::Differences(next, less) => {
            read_plan(plan, next, less, body, n, work, from)?;
            sum_up(work, from, n)
        }
        Stage::Runs(next, less) => read_runs(plan, next, less, body, n, work, from),
    }
}

// By a run stage whose two inner plans begin at an offset: the values after the list's place, the lengths after them.
#[cycle(read_plan_read_runs)]
fn read_runs(
    plan: &[u8],
    pos: Offset,
    stages: usize,
    body: &[u8],
    n: usize,
    work: &mut [u32],
    from: Place,
) -> Result<usize, Refusal>
    requires { Fits body.now work.old (suc stages) n from.number }
    ensures { Got (read (runs_at stages plan.now pos.byte) body.now n) from.number work.old
        work.new result }
{
    let header = header_of(body, n)?;
    let k = header.runs;
    let split = header.end.byte;
    let first = from.number;
    let values = Place { number: first + n };
    let lengths = Place {
        number: first + 2 * n,
    };
    let second = plan_end(plan, pos, stages);
    read_plan(plan, pos, stages, &body[8..split], k, work, values)?;
    read_plan(plan, second, stages, &body[split..], k, work, lengths)?;
    unroll_into(work, from, n, k)
}

// Reads n numbers by a plan into work from its first place on; 7n numbers of work are enough.
pub fn read_list(plan: &[u8], body: &[u8], n: usize, work: &mut [u32]) -> Result<usize, Refusal>
    requires { (length body.now ≤ most_bytes) × (n ≤ most_numbers) × (7 * n ≤ length work.old) }
    ensures { Got (read (plan_of plan.now) body.now n) 0 work.old work.new result }
{
    read_plan(
        plan,
        Offset { byte: 0 },
        MOST_STAGES,
        body,
        n,
        work,
        Place { number: 0 },
    )
}
