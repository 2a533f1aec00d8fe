// The depth-first search over prepared rows: each applicable operator in turn, and what follows it before the next. It calls nothing
// that calls itself: what it has to come back to stands on the trail, and of the stack one task is put back.
#![tactic(auto)]

ghost use Rattle.std.specs.Prelude.{◌≡◌, ◌≤◌, length};
ghost use Rattle.rules.specs.Limits.{most_limit, most_budget};
ghost use Rattle.rules.specs.Progression.{begin};
ghost use Rattle.rules.specs.Walks.{walk};
ghost use Rattle.words.specs.Words.{table_of};
ghost use Rattle.run.specs.Ready.{Ready};
ghost use Rattle.trail.specs.Trails.{trail_marks};
ghost use Rattle.links.specs.Links.{Linked};
ghost use Rattle.search.specs.Endings.{Tells};

use basics::Refusal;
use links::Links;
use rows::{Rows, row};
use rules::Reason;
use trail::Mark;
use words::Words;

// How many operators were applied, and how many marks of the trail are the plan found.
#[derive(Clone, Copy)]
pub struct Found {
    pub applied: u64,
    pub count: usize,
}

// The walk from the start, of at most `limit` operators, of which `budget` may be applied in all.
pub fn search(
    words: Words,
    bound: u64,
    form: u64,
    rows: Rows,
    links: &Links,
    limit: usize,
    budget: u64,
    trail: &mut [Mark; trail::MARKS],
) -> Result<Found, Refusal>
    requires ready { Ready bound form words.all.now rows.ops.now rows.cells.now × Linked bound form (table_of words.all.now) links.now }
    requires limit_le_most_limit { (limit ≤ most_limit) × (length trail.old ≡ trail_marks) × (budget ≤ most_budget) }
    ensures tells { Tells (table_of words.entry.all.now) budget (walk bound form (table_of words.entry.all.now) limit (begin (table_of words.entry.all.now))) trail.new result }
    ensures trail_len { length trail.new ≡ trail_marks }
{
    let mut stack = [0u16; row::STACK];
    let mut depth: usize = 0;
    let mut applied: u64 = 0;
    let mut at = spots::start(words, &mut stack);
    let mut next = spots::top_row(links, &stack, at.height, limit);
    loop {
        let Some(index) = next.row() else {
            if depth == 0 {
                return Err(Reason::NoPlan.at(applied));
            }
            depth -= 1;
            at = spots::back(trail[depth], rows, &mut stack);
            next = links.next(trail[depth].row);
            continue;
        };
        let Some(after) = spots::try_row(at, index, &mut stack, rows) else {
            next = links.next(index);
            continue;
        };
        if applied == budget {
            return Err(Reason::OverBudget.at(0));
        }
        applied += 1;
        let rest = limit - (depth + 1);
        next = spots::top_row(links, &stack, after.height, rest);
        let down = next.row().is_some();
        if down {
            trail[depth] = at.marked(index);
            depth += 1;
            at = after;
            continue;
        }
        if after.is_complete(words) {
            trail[depth] = at.marked(index);
            let count = depth + 1;
            return Ok(Found { applied, count });
        }
        spots::put_back(at.height, index, rows, &mut stack);
        next = links.next(index);
    }
}
