// The plan's bytes: what stands at an offset, and where the plan there ends.
ghost use Rattle.std.specs.Prelude.{◌≡◌, ◌+◌};
ghost use Rattle.meaning.specs.Codes.{is_code};
ghost use Rattle.meaning.specs.Plan.{plan_at, plan_size};
ghost use Rattle.judge.specs.Stage.{stage_at};

use meaning::{LAST_CODE, Offset};

// What stands at an offset: a stage holds where its first inner plan begins and how many stages that may have.
#[derive(Clone, Copy)]
pub enum Stage {
    Bad,
    Code(u8),
    Reference(Offset, usize),
    Differences(Offset, usize),
    Runs(Offset, usize),
}

fn is_code(b: u8) -> bool
    ensures { result ≡ is_code b }
{
    1 <= b && b <= LAST_CODE
}

// Any offset may be asked for: past the end nothing stands.
// kept: the bytes, an offset and the stages that may come stand side by side, since a struct of the three would be made anew at every stage.
pub fn stage_at(plan: &[u8], at: Offset, stages: usize) -> Stage
    ensures { result ≡ stage_at stages plan.now at.byte }
{
    let Some(&b) = plan.get(at.byte) else {
        return Stage::Bad;
    };
    if is_code(b) {
        return Stage::Code(b);
    }
    if stages == 0 {
        return Stage::Bad;
    }
    let next = Offset { byte: at.byte + 1 };
    let less = stages - 1;
    match b {
        16 => Stage::Reference(next, less),
        17 => Stage::Differences(next, less),
        18 => Stage::Runs(next, less),
        _ => Stage::Bad,
    }
}

// Where the plan that begins at an offset ends.
pub fn plan_end(plan: &[u8], at: Offset, stages: usize) -> Offset
    ensures { result.byte ≡ at.byte + plan_size (plan_at stages plan.now at.byte) }
{
    match stage_at(plan, at, stages) {
        Stage::Bad => at,
        Stage::Code(_) => Offset { byte: at.byte + 1 },
        Stage::Reference(next, less) | Stage::Differences(next, less) => {
            plan_end(plan, next, less)
        }
        Stage::Runs(next, less) => {
            let second = plan_end(plan, next, less);
            plan_end(plan, second, less)
        }
    }
}
