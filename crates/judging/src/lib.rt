// A plan against a table: its check, and over it the expansion.
#![tactic(auto)]

ghost use Rattle.std.specs.Prelude.{◌≡◌, length};
ghost use Rattle.rules.specs.Checks.{verdict_of};
ghost use Rattle.rules.specs.Refusals.{check_plan, expand_plan, written};
ghost use Rattle.run.specs.Runs.{Few};

use basics::Refusal;
use rules::Tally;
use words::Words;

pub mod expanding;

// The verdict, and the step list in the bytes where the plan is accepted and there is room for it.
pub fn judge(
    bound: u64,
    form: u64,
    table: &[u8],
    plan: &[u8],
    steps: &mut [u8],
) -> Result<Tally, Refusal>
    ensures few { Few result × (verdict_of result ≡ check_plan bound form table.now plan.now) }
    ensures steps_after { steps.new ≡ written steps.old 0 (expand_plan bound form table.now plan.now (length steps.old)) }
{
    let mut words = [0u64; words::SIZE];
    opening::open(
        bound,
        form,
        Ok(()),
        table,
        own_checks::plan_fits(plan),
        &mut words,
    )?;
    plan::judge(Words { all: &words }, bound, form, plan, steps)
}

// The verdict alone: no byte is lent for steps.
pub fn verdict(bound: u64, form: u64, table: &[u8], plan: &[u8]) -> Result<Tally, Refusal>
    ensures { Few result × (verdict_of result ≡ check_plan bound form table.now plan.now) }
{
    judge(bound, form, table, plan, &mut [])
}
