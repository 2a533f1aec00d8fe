// How a run ends: with a verdict.
#![tactic(auto)]

ghost use Rattle.std.specs.Prelude.{◌≡◌, List, ℕ};
ghost use Rattle.rules.specs.Checks.{verdict_of, finish};
ghost use Rattle.words.specs.Words.{table_of};
ghost use Rattle.run.specs.Steps.{check_at};
ghost use Rattle.run.specs.Runs.{ProgressOk, point_of, Few};

use basics::Refusal;
use rules::{Reason, Tally};
use run::Progress;
use words::Words;

// The end of a plan of so many lines.
pub fn conclude(words: Words, t: Progress, lines: u64) -> Result<Tally, Refusal>
    requires { ProgressOk t }
    ensures few { Few result }
    ensures verdict { (cells : List ℕ) → verdict_of result ≡ finish (table_of words.entry.all.now) (check_at lines (point_of t cells)) }
{
    let left = t.height != 0;
    if left {
        return Err(Reason::StackNotEmpty.at(lines));
    }
    if !facts::holds(words.goal_facts(), t.facts) {
        return Err(Reason::GoalMissing.at(lines));
    }
    let tally = Tally {
        cost: t.cost,
        operators: t.operators,
        steps: t.steps,
    };
    Ok(tally)
}
