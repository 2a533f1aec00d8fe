// Reads the methods of a table into its words.
#![tactic(auto)]

ghost use Rattle.std.specs.Prelude.{◌+◌, ◌*◌, ◌≤◌, length};
ghost use Rattle.basics.specs.Lists.{rows};
ghost use Rattle.basics.specs.Readings.{many};
ghost use Rattle.rules.specs.Reasons.{not_there};
ghost use Rattle.rules.specs.Numbers.{ranged};
ghost use Rattle.rules.specs.Tables.{read_method};
ghost use Rattle.words.specs.Words.{per_method, first_method, cell_of, method_at, method_of};
ghost use Rattle.numbers.specs.Answers.{Reads};

use basics::Refusal;
use numbers::field;
use rules::Reason;
use rules::limits::MOST_SUBTASKS;
use words::{FIRST_METHOD, PER_METHOD};

// n subtasks in the words from b on.
fn read_subtasks(
    s: &[u8],
    at: usize,
    words: &mut [u64],
    b: usize,
    n: usize,
    hi: u64,
) -> Result<usize, Refusal>
    requires { b + n ≤ length words.old }
    ensures { Reads result (rows (cell_of b words.new) n) (many (ranged s.now 0 hi not_there) n at) b words.old words.new }
{
    let mut p = at;
    for j in 0..n {
        let (task, next) = field(s, p, 0, hi, Reason::NotThere as u64)?;
        words[b + j] = task;
        p = next;
    }
    Ok(p)
}

// One method in the words from b on: head, count, subtasks.
fn read_method(
    s: &[u8],
    at: usize,
    words: &mut [u64],
    b: usize,
    lo: u64,
    hi: u64,
) -> Result<usize, Refusal>
    requires { b + per_method ≤ length words.old }
    ensures { Reads result (method_at words.new b) (read_method s.now lo hi at) b words.old words.new }
{
    let (head, at) = field(s, at, lo, hi, Reason::NotThere as u64)?;
    let (n, at) = field(s, at, 0, MOST_SUBTASKS, Reason::OutOfRange as u64)?;
    words[b] = head;
    words[b + 1] = n;
    read_subtasks(s, at, words, b + 2, n as usize, hi)
}

// The methods, in the words behind all actions.
pub fn read_methods(
    s: &[u8],
    at: usize,
    words: &mut [u64],
    n: usize,
    lo: u64,
    hi: u64,
) -> Result<usize, Refusal>
    requires { first_method + per_method * n ≤ length words.old }
    ensures { Reads result (rows (method_of words.new) n) (many (read_method s.now lo hi) n at) first_method words.old words.new }
{
    let mut p = at;
    for k in 0..n {
        p = read_method(s, p, words, FIRST_METHOD + PER_METHOD * k, lo, hi)?;
    }
    Ok(p)
}
