// Expand a plan into steps.
ghost use Rattle.std.specs.Prelude.{◌≡◌, ◌*◌, length};
ghost use Rattle.basics.specs.Answers.{after, reply_of, length_of};
ghost use Rattle.rules.specs.Checks.{verdict_of};
ghost use Rattle.rules.specs.Refusals.{room_of, expand_plan, written};
ghost use Rattle.run.specs.Runs.{Few};

use basics::Refusal;
use rules::Tally;

// What a verdict says of the step list, two bytes a step, in so many bytes.
fn reply_for(verdict: Result<Tally, Refusal>, size: u64) -> Result<u64, Refusal>
    requires { Few verdict }
    ensures { reply_of result ≡ after (verdict_of verdict) (λ y. room_of size 0 (2 * y.steps)) }
{
    let tally = verdict?;
    rooms::room(2 * tally.steps, size, 0)
}

// The length of the step list, and nothing written.
#[tactic(auto, using(crate::proofs::MeasureLaws::measured))]
pub fn measure(
    bound: u64,
    form: u64,
    table: &[u8],
    plan: &[u8],
    size: usize,
) -> Result<u64, Refusal>
    ensures { reply_of result ≡ length_of (expand_plan bound form table.now plan.now size) }
{
    reply_for(crate::verdict(bound, form, table, plan), size as u64)
}

// The step list from the start of the bytes on, and its length.
#[tactic(auto, using(crate::proofs::MeasureLaws::measured))]
pub fn write(
    bound: u64,
    form: u64,
    table: &[u8],
    plan: &[u8],
    steps: &mut [u8],
) -> Result<u64, Refusal>
    ensures result_value { reply_of result ≡ length_of (expand_plan bound form table.now plan.now (length steps.old)) }
    ensures steps_after { steps.new ≡ written steps.old 0 (expand_plan bound form table.now plan.now (length steps.old)) }
{
    let size = steps.len() as u64;
    reply_for(crate::judge(bound, form, table, plan, steps), size)
}
