// One number by a plan, with no work lent: what is needed of inner numbers is collected once, or added up as it is read.
ghost use Rattle.std.specs.Prelude.{◌≡◌, ◌+◌, ◌≤◌};
ghost use Rattle.meaning.specs.Answer.{number};
ghost use Rattle.meaning.specs.Limits.{most_stages};
ghost use Rattle.meaning.specs.Plan.{plan_at, plan_of};
ghost use Rattle.meaning.specs.Says.{says, says_by};
ghost use Rattle.meaning.specs.Stages.{look, numbers_through, seek, within};
ghost use Rattle.codes.specs.Firsts.{Looked, total};
ghost use Rattle.codes.specs.Started.{run_told};
ghost use Rattle.plan_look.specs.Turns.{found_told, run_in, run_of, second_at};

use crate::firsts::firsts_plan;
use codes::{First, lookup_code, seek_code, total_code};
use judge::MOST_STAGES;
use judge::stage::{Stage, plan_end, stage_at};
use meaning::{Offset, Place, Refusal};
use stages::{Header, Sought, header_of, seek_in, total_of};
use words::word_at;

// A sum as a number, refused above 2^32 - 1.
#[tactic(auto, unfolding(meaning::specs::Stages::within))]
fn number_of(sum: u64) -> Result<u32, Refusal>
    ensures { says result ≡ within sum }
{
    u32::try_from(sum).or(Err(Refusal::Broken))
}

// The sum of the numbers through a place, below a stage: they are collected first.
fn total_stage(
    plan: &[u8],
    pos: Offset,
    stages: usize,
    body: &[u8],
    n: usize,
    place: Place,
) -> Result<u64, Refusal>
    requires { (Looked body.now n place.number) × (stages ≤ 2) }
    ensures { says result ≡ total (look (plan_at stages plan.now pos.byte) body.now n) (place.number + 1) }
{
    let mut work = [0u32; 5120];
    let start = Place { number: 0 };
    let k = place.number + 1;
    let got = firsts_plan(plan, pos, stages, body, n, k, &mut work, start);
    if let Some(e) = got.stop {
        return Err(e);
    }
    Ok(total_of(&work[..k]))
}

// The sum of the numbers through a place: a code adds them up as it reads.
fn total_plan(
    plan: &[u8],
    pos: Offset,
    stages: usize,
    body: &[u8],
    n: usize,
    place: Place,
) -> Result<u64, Refusal>
    requires { (Looked body.now n place.number) × (stages ≤ 2) }
    ensures { says result ≡ total (look (plan_at stages plan.now pos.byte) body.now n) (place.number + 1) }
{
    let Stage::Code(code) = stage_at(plan, pos, stages) else {
        return total_stage(plan, pos, stages, body, n, place);
    };
    total_code(code, body, n, place)
}

// The run that was sought in the lengths of the first runs. Where it is none of them, the next length was refused or there is none.
fn run_of(sought: Sought, got: First) -> Result<Place, Refusal>
    ensures { says_by run_told result ≡ run_of got sought }
{
    match sought {
        Sought::At(j) => Ok(j),
        Sought::After(_) => Err(got.stop.unwrap_or(Refusal::Broken)),
    }
}

// The run that holds a place of n, its lengths by a stage.
fn run_by_stage(
    plan: &[u8],
    pos: Offset,
    stages: usize,
    body: &[u8],
    runs: usize,
    n: usize,
    place: Place,
) -> Result<Place, Refusal>
    requires { (Looked body.now n place.number) × (runs ≤ n) × (stages ≤ 2) }
    ensures { says_by run_told result ≡ seek (look (plan_at stages plan.now pos.byte) body.now runs) n place.number runs 0 0 }
{
    let mut work = [0u32; 5120];
    let start = Place { number: 0 };
    let few = runs.min(place.number + 1);
    let got = firsts_plan(plan, pos, stages, body, runs, few, &mut work, start);
    run_of(seek_in(&work[..got.count], n, place, start)?, got)
}

// The run that holds a place of n: no more lengths are asked for than places, since each is one at least.
fn find_run(
    plan: &[u8],
    pos: Offset,
    stages: usize,
    body: &[u8],
    runs: usize,
    n: usize,
    place: Place,
) -> Result<Place, Refusal>
    requires { (Looked body.now n place.number) × (runs ≤ n) × (stages ≤ 2) }
    ensures { says_by run_told result ≡ seek (look (plan_at stages plan.now pos.byte) body.now runs) n place.number runs 0 0 }
{
    let Stage::Code(code) = stage_at(plan, pos, stages) else {
        return run_by_stage(plan, pos, stages, body, runs, n, place);
    };
    seek_code(code, body, runs, n, place)
}

// A run stage's header and the run that holds a place of n; the stage's two inner plans begin at `pos`, and lengths are by the second.
fn run_at(
    plan: &[u8],
    pos: Offset,
    stages: usize,
    body: &[u8],
    n: usize,
    place: Place,
) -> Result<(Header, Place), Refusal>
    requires { (Looked body.now n place.number) × (stages ≤ 2) }
    ensures { says_by found_told result ≡ run_in (second_at stages plan.now pos.byte) body.now n place.number }
{
    let header = header_of(body, n)?;
    let split = header.end.byte;
    let second = plan_end(plan, pos, stages);
    let run = find_run(plan, second, stages, &body[split..], header.runs, n, place)?;
    Ok((header, run))
}

// The refusal of the numbers through a place when they are taken once and no sum is tested, if there is one. It is asked for only where their sum is
// refused: a number that is too large comes after whatever is cut short or broken behind it.
fn taking(
    plan: &[u8],
    pos: Offset,
    stages: usize,
    body: &[u8],
    n: usize,
    place: Place,
) -> Result<(), Refusal>
    requires { (Looked body.now n place.number) × (stages ≤ 2) }
    ensures { number (says result) ≡ number (numbers_through (plan_at stages plan.now pos.byte) body.now n place.number) }
{
    match stage_at(plan, pos, stages) {
        Stage::Bad => Err(Refusal::Broken),
        Stage::Reference(next, less) => {
            if body.len() < 4 {
                return Err(Refusal::CutShort);
            }
            taking(plan, next, less, &body[4..], n, place)
        }
        Stage::Code(_) | Stage::Differences(_, _) => {
            total_plan(plan, pos, stages, body, n, place)?;
            Ok(())
        }
        Stage::Runs(next, less) => {
            let (header, run) = run_at(plan, next, less, body, n, place)?;
            let values = &body[8..header.end.byte];
            taking(plan, next, less, values, header.runs, run)
        }
    }
}

// The number at a place of n.
pub fn lookup_plan(
    plan: &[u8],
    pos: Offset,
    stages: usize,
    body: &[u8],
    n: usize,
    place: Place,
) -> Result<u32, Refusal>
    requires { (Looked body.now n place.number) × (stages ≤ most_stages) }
    ensures { says result ≡ look (plan_at stages plan.now pos.byte) body.now n place.number }
{
    match stage_at(plan, pos, stages) {
        Stage::Bad => Err(Refusal::Broken),
        Stage::Code(code) => lookup_code(code, body, n, place),
        Stage::Reference(next, less) => {
            if body.len() < 4 {
                return Err(Refusal::CutShort);
            }
            let m = word_at(body, Offset { byte: 0 });
            let x = lookup_plan(plan, next, less, &body[4..], n, place)?;
            m.checked_add(x).ok_or(Refusal::Broken)
        }
        Stage::Differences(next, less) => match total_plan(plan, next, less, body, n, place) {
            Ok(sum) => number_of(sum),
            Err(e) => {
                taking(plan, next, less, body, n, place)?;
                Err(e)
            }
        },
        Stage::Runs(next, less) => {
            let (header, run) = run_at(plan, next, less, body, n, place)?;
            let values = &body[8..header.end.byte];
            lookup_plan(plan, next, less, values, header.runs, run)
        }
    }
}

// The number at a place of a column of n numbers, by the column's plan.
#[tactic(auto, unfolding(meaning::specs::Plan::plan_of))]
pub fn lookup_list(plan: &[u8], body: &[u8], n: usize, place: Place) -> Result<u32, Refusal>
    requires { Looked body.now n place.number }
    ensures { says result ≡ look (plan_of plan.now) body.now n place.number }
{
    lookup_plan(plan, Offset { byte: 0 }, MOST_STAGES, body, n, place)
}
