// The checks that an entry has of its own beside those of its table.
#![tactic(auto)]

ghost use Rattle.std.specs.Prelude.{◌≡◌};
ghost use Rattle.basics.specs.Answers.{answer, answer_of};
ghost use Rattle.rules.specs.Refusals.{passed, plan_number, search_number};

use basics::Refusal;
use rules::Reason;
use rules::limits::{MOST_BUDGET, MOST_LIMIT, MOST_PLAN_BYTES};

// The plan's length: told after the table's length and before the table.
pub fn plan_fits(plan: &[u8]) -> Result<(), Refusal>
    ensures { answer_of (λ u. u) result ≡ passed (plan_number plan.now) (answer tt) }
{
    if MOST_PLAN_BYTES < plan.len() {
        return Err(Reason::PlanTooLong.at(0));
    }
    Ok(())
}

// L and the budget of a search: told after the form and before the table's length.
pub fn limits_hold(limit: u64, budget: u64) -> Result<(), Refusal>
    ensures { answer_of (λ u. u) result ≡ passed (search_number limit budget) (answer tt) }
{
    let low = limit < 1;
    if low {
        return Err(Reason::BadLimits.at(0));
    }
    if MOST_LIMIT < limit {
        return Err(Reason::BadLimits.at(0));
    }
    if MOST_BUDGET < budget {
        return Err(Reason::BadLimits.at(0));
    }
    Ok(())
}
