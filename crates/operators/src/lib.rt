// The operators of a table in words: what a method takes with it, where its operators exist, and how many there are.
#![tactic(auto)]

ghost use Rattle.std.specs.Prelude.{◌≡◌, cond, ◌≤◌, ◌<◌, length};
ghost use Rattle.rules.specs.Limits.{most_bound};
ghost use Rattle.rules.specs.Tables.{method_count};
ghost use Rattle.rules.specs.Progression.{mth};
ghost use Rattle.rules.specs.Operators.{highest, positions, operators_of};
ghost use Rattle.words.specs.Words.{table_of};
ghost use Rattle.operators.specs.Prefixes.{IsPrefix};

use facts::Join;
use words::Words;

// The actions that a method takes with it, joined, and how many they are.
#[derive(Clone, Copy)]
pub struct Prefix {
    pub join: Join,
    pub count: usize,
}

pub fn prefix_of(words: Words, form: u64, k: usize) -> Prefix
    requires { k < method_count (table_of words.all.now) }
    ensures { IsPrefix form (table_of words.entry.all.now) k result }
{
    let mut join = facts::no_join();
    if form == 0 {
        return Prefix { join, count: 0 };
    }
    let width = words.width_of(k);
    let actions = words.action_count() as usize;
    for count in 0..width {
        let task = words.subtask(k, count);
        if actions <= task {
            return Prefix { join, count };
        }
        join = facts::join_one(join, words.action_at(task));
    }
    Prefix { join, count: width }
}

// The highest position of a method that leaves r tasks, 0 where there is none: document 01's number (rules Operators.highest).
pub fn highest_position(dead: bool, bound: u64, r: u64) -> u64
    requires { bound ≤ most_bound }
    ensures { result ≡ cond dead 0 (highest bound r) }
{
    if dead {
        return 0;
    }
    if r == 0 {
        return bound;
    }
    if bound < r { 0 } else { bound + 1 - r }
}

// At how many positions method k has an operator: 1 to this.
pub fn method_positions(words: Words, bound: u64, form: u64, k: usize) -> u64
    requires { (bound ≤ most_bound) × (k < method_count (table_of words.all.now)) }
    ensures { result ≡ positions bound form (table_of words.entry.all.now) (mth k) }
{
    let Prefix { join, count } = prefix_of(words, form, k);
    let stay = words.width_of(k) - count;
    highest_position(join.dead, bound, stay as u64)
}

// How many operators there are.
pub fn operator_count(words: Words, bound: u64, form: u64) -> u64
    requires { bound ≤ most_bound }
    ensures { result ≡ length (operators_of bound form (table_of words.entry.all.now)) }
{
    let mut count = words.action_count() * bound;
    for k in 0..words.method_count() {
        count += method_positions(words, bound, form, k);
    }
    count
}
