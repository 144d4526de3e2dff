// The plans of orders: 15 zeros mean the default.
ghost use Rattle.std.specs.Prelude.{◌≡◌, ◌+◌, ◌<◌, ◌^◌, length};
ghost use Rattle.std.proofs.lemmas.List.Edits.{sets};
ghost use Rattle.meaning.specs.Limits.{plan_bytes};
ghost use Rattle.meaning.specs.Plan.{default_plan, plan_used};

use judge::blank_from;
use leaves::put;
use meaning::{Offset, PLAN_BYTES, RISING};

// The bytes of a slice are put at an offset of an output, as far as they lie within it.
pub fn put_bytes(bytes: &[u8], out: &mut [u8], at: Offset)
    requires { at.byte + length bytes.now < 2 ^ 64 }
    ensures { out.new ≡ sets out.old at.byte bytes.now }
{
    let start = at.byte;
    for (i, &b) in bytes.iter().enumerate() {
        put(out, Offset { byte: start + i }, b);
    }
}

// The default: 17 1 for kind 1, else 1.
#[tactic(auto, unfolding(meaning::specs::Plan::default_plan))]
fn default_plan(kind: u8) -> [u8; PLAN_BYTES]
    ensures { result ≡ default_plan kind }
{
    if kind == RISING {
        return [17, 1, 0, 0, 0, 0, 0, 0, 0, 0, 0, 0, 0, 0, 0];
    }
    [1, 0, 0, 0, 0, 0, 0, 0, 0, 0, 0, 0, 0, 0, 0]
}

// The plan really used where this one was ordered.
pub fn used_plan(kind: u8, ordered: &[u8]) -> [u8; PLAN_BYTES]
    requires { length ordered.now ≡ plan_bytes }
    ensures { result ≡ plan_used kind ordered.now }
{
    if blank_from(ordered, Offset { byte: 0 }) {
        return default_plan(kind);
    }
    let mut plan = [0u8; PLAN_BYTES];
    plan.copy_from_slice(ordered);
    plan
}
