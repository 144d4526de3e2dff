// The numbers at the first places by a plan, collected once: no stage looks its inner numbers up one by one.
ghost use Rattle.std.specs.Prelude.{◌≡◌, suc, ◌+◌, ◌*◌, ◌≤◌, length, get_or};
ghost use Rattle.meaning.specs.Plan.{plan_at, runs_at};
ghost use Rattle.meaning.specs.Stages.{look};
ghost use Rattle.codes.specs.Firsts.{Firsts};
ghost use Rattle.stages.specs.Room.{Fits};
ghost use Rattle.plan_look.specs.Turns.{ended_by, stop_at, next_refusal, RunsTurned};

use codes::{First, firsts_code};
use judge::stage::{Stage, plan_end, stage_at};
use meaning::{Offset, Place, Refusal};
use stages::{Laid, header_of, raise_firsts, run_fits, spread, sum_firsts};
use words::word_at;

// So many numbers of k, and then a refusal where there are fewer.
#[tactic(auto, unfolding(crate::specs::Turns::ended_by))]
fn ended(count: usize, k: usize, refusal: Refusal) -> First
    ensures { result ≡ ended_by k count refusal }
{
    if count < k {
        return First {
            count,
            stop: Some(refusal),
        };
    }
    First {
        count: k,
        stop: None,
    }
}

// What was got, up to a number that is too large.
#[tactic(auto, unfolding(crate::specs::Turns::stop_at))]
fn stop_at(got: First, count: usize) -> First
    ensures { result ≡ stop_at got count }
{
    if count < got.count {
        return First {
            count,
            stop: Some(Refusal::Broken),
        };
    }
    got
}

// Why no run follows those that are laid: its length is not there or does not fit, or its value is not there.
#[tactic(auto, unfolding(crate::specs::Turns::next_refusal))]
fn next_refusal(
    work: &[u32],
    from: Place,
    n: usize,
    values: First,
    lengths: First,
    laid: Laid,
) -> Refusal
    requires { (from.number + lengths.count ≤ length work.now) × (laid.numbers ≤ n) }
    ensures { result ≡ next_refusal n values lengths laid (get_or work.now (from.number + laid.runs) 0) }
{
    let j = laid.runs;
    if lengths.count <= j {
        return lengths.stop.unwrap_or(Refusal::Broken);
    }
    if run_fits(n, laid.numbers, work[from.number + j]) {
        return values.stop.unwrap_or(Refusal::Broken);
    }
    Refusal::Broken
}

// The first k numbers of n that runs make; the values of the first runs stand n places after them, their lengths 2n.
fn spread_runs(
    work: &mut [u32],
    from: Place,
    n: usize,
    k: usize,
    runs: usize,
    values: First,
    lengths: First,
) -> First
    requires { (from.number + 3 * n ≤ length work.old) × (k ≤ n) × (values.count ≤ n) × (lengths.count ≤ n) }
    ensures { RunsTurned from.number n k runs work.old values lengths work.new result }
{
    let first = from.number;
    let both = values.count.min(lengths.count);
    let laid = spread(work, from, n, k, both);
    let third = Place {
        number: first + 2 * n,
    };
    let refusal = next_refusal(work, third, n, values, lengths, laid);
    ended(laid.numbers, k, refusal)
}

// The numbers at the first k places of n go to work from a place on, as far as no place refuses.
#[cycle(firsts_plan_firsts_runs)]
pub fn firsts_plan(
    plan: &[u8],
    pos: Offset,
    stages: usize,
    body: &[u8],
    n: usize,
    k: usize,
    work: &mut [u32],
    from: Place,
) -> First
    requires { (Fits body.now work.old stages n from.number) × (k ≤ n) }
    ensures { Firsts (look (plan_at stages plan.now pos.byte) body.now n) k from.number work.old
        work.new result }
{
    match stage_at(plan, pos, stages) {
        Stage::Bad => ended(0, k, Refusal::Broken),
        Stage::Code(code) => firsts_code(code, body, n, k, work, from),
        Stage::Reference(next, less) => {
            if body.len() < 4 {
                return ended(0, k, Refusal::CutShort);
            }
            let m = word_at(body, Offset { byte: 0 });
            let got = firsts_plan(plan, next, less, &body[4..], n, k, work, from);
            let count = raise_firsts(work, from, got.count, m);
            stop_at(got, count)
        }
        Stage::Differences(next, less) => {
            let got = firsts_plan(plan, next, less, body, n, k, work, from);
            let count = sum_firsts(work, from, got.count);
            stop_at(got, count)
        }
        Stage::Runs(next, less) => firsts_runs(plan, next, less, body, n, k, work, from),
    }
}

// By a run stage whose two inner plans begin at `pos`: no more runs are asked for than places, since each holds one at least.
#[cycle(firsts_plan_firsts_runs)]
fn firsts_runs(
    plan: &[u8],
    pos: Offset,
    stages: usize,
    body: &[u8],
    n: usize,
    k: usize,
    work: &mut [u32],
    from: Place,
) -> First
    requires { (Fits body.now work.old (suc stages) n from.number) × (k ≤ n) }
    ensures { Firsts (look (runs_at stages plan.now pos.byte) body.now n) k from.number work.old
        work.new result }
{
    let header = match header_of(body, n) {
        Ok(header) => header,
        Err(e) => return ended(0, k, e),
    };
    let split = header.end.byte;
    let first = from.number;
    let second = Place { number: first + n };
    let third = Place {
        number: first + 2 * n,
    };
    let runs = header.runs;
    let few = runs.min(k);
    let after = plan_end(plan, pos, stages);
    let values = firsts_plan(plan, pos, stages, &body[8..split], runs, few, work, second);
    let lengths = firsts_plan(plan, after, stages, &body[split..], runs, few, work, third);
    spread_runs(work, from, n, k, runs, values, lengths)
}
