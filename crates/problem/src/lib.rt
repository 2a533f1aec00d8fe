// The problem that a table is turned into, section by section.
#![tactic(auto)]

ghost use Rattle.std.specs.Prelude.{◌≡◌, ◌+◌, ◌*◌, ◌≤◌, length};
ghost use Rattle.rules.specs.Limits.{most_bound};
ghost use Rattle.rules.specs.Tables.{action_count};
ghost use Rattle.rules.specs.Problems.{variable_count};
ghost use Rattle.rules.specs.Sections.{sections_of};
ghost use Rattle.words.specs.Words.{table_of};
ghost use Rattle.problem.specs.Places.{IsFound};

use words::Words;

// How many variables there are: the facts, the top of the stack, and its positions.
pub fn variable_count(words: Words, bound: u64) -> u64
    requires { bound ≤ most_bound }
    ensures { result ≡ variable_count bound (table_of words.entry.all.now) }
{
    words.fact_count() + 1 + bound
}

// How many sections there are: one, one for each variable, one, one for each operator, and one.
pub fn section_count(words: Words, bound: u64, form: u64) -> u64
    requires { bound ≤ most_bound }
    ensures { result ≡ length (sections_of bound form (table_of words.entry.all.now)) }
{
    let variables = variable_count(words, bound);
    let operators = operators::operator_count(words, bound, form);
    variables + operators + 3
}

// Where an operator stands: its step, and how many positions of that step come before it.
#[derive(Clone, Copy)]
pub struct OperatorPlace {
    pub step: usize,
    pub position: usize,
}

// Operator n of those of the methods; else how far past the last it is.
fn method_at(words: Words, bound: u64, form: u64, n: u64) -> Result<OperatorPlace, u64>
    requires { bound ≤ most_bound }
    ensures { IsFound bound form (table_of words.entry.all.now) (action_count (table_of words.entry.all.now) * bound + n) result }
{
    let first = words.action_count() as usize;
    let mut left = n;
    for k in 0..words.method_count() {
        let count = operators::method_positions(words, bound, form, k);
        if left < count {
            let step = first + k;
            let position = left as usize;
            return Ok(OperatorPlace { step, position });
        }
        left -= count;
    }
    Err(left)
}

// Operator n of all; else how far past the last it is.
pub fn find(words: Words, bound: u64, form: u64, n: u64) -> Result<OperatorPlace, u64>
    requires { (bound ≤ most_bound) × (1 ≤ bound) }
    ensures { IsFound bound form (table_of words.entry.all.now) n result }
{
    let actions = words.action_count() * bound;
    if n < actions {
        let step = (n / bound) as usize;
        let position = (n % bound) as usize;
        return Ok(OperatorPlace { step, position });
    }
    method_at(words, bound, form, n - actions)
}
