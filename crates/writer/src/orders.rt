// Orders taken apart: whether they hold, their plans judged in turn, whether their lists are of their kinds, and the largest count.
ghost use Rattle.std.specs.Prelude.{◌≡◌, ◌*◌, ◌<◌, length};
ghost use Rattle.meaning.specs.Answer.{in_turn};
ghost use Rattle.meaning.specs.Limits.{number_limit, plan_bytes};
ghost use Rattle.meaning.specs.Lists.{all, sum, largest};
ghost use Rattle.meaning.specs.Operations.{orders_of};
ghost use Rattle.meaning.specs.Says.{says};
ghost use Rattle.writer.specs.Orders.{order_holds, list_judged, list_rises, verdict_told, columns_of, hold};

use crate::plans::used_plan;
use judge::judge_plan;
use meaning::{MOST_COLUMNS, MOST_NUMBERS, PLAN_BYTES, RISING, Refusal};
use stages::{of_kind, total_of};

// A kind, 15 plan bytes and a count of each order, and one slice with all their lists joined.
#[derive(Clone, Copy)]
pub struct Orders<'a> {
    pub kinds: &'a [u8],
    pub plans: &'a [u8],
    pub counts: &'a [u32],
    pub joined: &'a [u32],
}

impl<'a> Orders<'a> {
    // Whether every kind is at most 1 and every count at most 1,024.
    fn each_holds(&self) -> bool
        requires { length self.now.counts.now ≡ length self.now.kinds.now }
        ensures { result ≡ all order_holds (orders_of self.now.kinds.now self.now.plans.now self.now.counts.now) }
    {
        self.kinds.iter().all(|&kind| kind <= RISING)
            && self
                .counts
                .iter()
                .all(|&count| count as usize <= MOST_NUMBERS)
    }

    // Whether they are orders that hold.
    pub fn hold(&self) -> bool
        ensures { result ≡ hold self.now }
    {
        let n = self.kinds.len();
        if MOST_COLUMNS < n {
            return false;
        }
        if self.plans.len() != PLAN_BYTES * n {
            return false;
        }
        if self.counts.len() != n {
            return false;
        }
        self.each_holds() && total_of(self.counts) == self.joined.len() as u64
    }

    // The largest count, 0 where there is none.
    pub fn largest(&self) -> usize
        ensures { (result ≡ largest self.now.counts.now) × (result < number_limit) }
    {
        self.counts.iter().copied().max().unwrap_or(0) as usize
    }

    // Each plan that is really used, judged in turn.
    pub fn judge(&self) -> Result<(), Refusal>
        requires { length self.now.plans.now ≡ plan_bytes * length self.now.kinds.now }
        ensures { says result ≡ verdict_told (in_turn list_judged 0 (columns_of self.now)) }
    {
        for (k, &kind) in self.kinds.iter().enumerate() {
            let at = PLAN_BYTES * k;
            let plan = used_plan(kind, &self.plans[at..at + PLAN_BYTES]);
            judge_plan(kind, &plan)?;
        }
        Ok(())
    }

    // Whether every list is of its kind, by the edition.
    pub fn rise(&self, edition: u8) -> bool
        requires { (length self.now.counts.now ≡ length self.now.kinds.now) × (sum self.now.counts.now ≡ length self.now.joined.now) }
        ensures { result ≡ all (list_rises edition) (columns_of self.now) }
    {
        let mut from: usize = 0;
        for (k, &kind) in self.kinds.iter().enumerate() {
            let n = self.counts[k] as usize;
            if !of_kind(edition, kind, &self.joined[from..from + n]) {
                return false;
            }
            from += n;
        }
        true
    }
}
