// The least bound of a table in words, for a form: found in rounds over its methods.
#![tactic(auto)]

ghost use Rattle.std.specs.Prelude.{◌≡◌, not, ◌++◌, ◌<◌, ◌≤◌, length, replicate, drop, T};
ghost use Rattle.rules.specs.Tables.{task_count, method_count, start_task};
ghost use Rattle.rules.specs.LeastBounds.{bound_of, lowers, improve, round, settled, up_to_most, least_bound};
ghost use Rattle.laws.specs.Bounds.{Kept};
ghost use Rattle.words.specs.Words.{table_of};

use rules::limits::{MOST_BOUND, MOST_TASKS};
use words::Words;

// A bound above all, where none is known: `unknown` of rules' LeastBounds, in bytes as they are there.
const UNKNOWN: u8 = MOST_BOUND as u8 + 1;

const TASKS: usize = MOST_TASKS as usize;

// Lowers the bound of method k's head where the method does; whether it did.
fn improve_one(words: Words, form: u64, k: usize, bounds: &mut [u8]) -> bool
    requires { (k < method_count (table_of words.all.now)) × (task_count (table_of words.all.now) ≤ length bounds.old) }
    ensures bounds_after { bounds.new ≡ improve form (table_of words.entry.all.now) bounds.old k }
    ensures value { result ≡ lowers form (table_of words.entry.all.now) bounds.old k }
{
    let head = words.head_of(k);
    let next = rising::method_bound(words, form, k, bounds);
    let old = bounds[head] as u64;
    if next < old {
        bounds[head] = next as u8;
        return true;
    }
    false
}

// Each method in turn; whether one of them lowered a bound.
fn one_round(words: Words, form: u64, bounds: &mut [u8]) -> bool
    requires { Kept form (table_of words.all.now) bounds.old }
    ensures bounds_after { bounds.new ≡ round form (table_of words.entry.all.now) bounds.old (method_count (table_of words.entry.all.now)) }
    ensures value { result ≡ not (settled form (table_of words.entry.all.now) bounds.old (method_count (table_of words.entry.all.now))) }
{
    let mut lowered = false;
    for k in 0..words.method_count() {
        lowered |= improve_one(words, form, k, bounds);
    }
    lowered
}

// Rounds until no method lowers a bound.
fn settle(words: Words, form: u64, bounds: &mut [u8])
    requires { Kept form (table_of words.all.now) bounds.old }
    ensures kept { Kept form (table_of words.entry.all.now) bounds.new }
    ensures settled { T (settled form (table_of words.entry.all.now) bounds.new (method_count (table_of words.entry.all.now))) }
{
    let mut again = true;
    while again {
        again = one_round(words, form, bounds);
    }
}

// The first n bounds are 1: an action's is.
fn put_ones(bounds: &mut [u8], n: usize)
    requires { n ≤ length bounds.old }
    ensures { bounds.new ≡ replicate n 1 ++ drop n bounds.old }
{
    bounds[..n].fill(1);
}

// The starting task's bound, 0 where none is known.
fn start_bound(words: Words, bounds: &[u8]) -> u64
    requires { task_count (table_of words.all.now) ≤ length bounds.now }
    ensures { result ≡ up_to_most (bound_of bounds.now (start_task (table_of words.entry.all.now))) }
{
    let start = words.start_task() as usize;
    let bound = bounds[start] as u64;
    if bound <= MOST_BOUND { bound } else { 0 }
}

pub fn least(words: Words, form: u64) -> u64
    ensures { result ≡ least_bound form (table_of words.entry.all.now) }
{
    let mut bounds = [UNKNOWN; TASKS];
    put_ones(&mut bounds, words.action_count() as usize);
    settle(words, form, &mut bounds);
    start_bound(words, &bounds)
}
