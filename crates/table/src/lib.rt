// Reads a table: a row of numbers, each checked against its range.
#![tactic(auto)]

ghost use Rattle.std.specs.Prelude.{◌≡◌, ◌+◌, ◌*◌, ◌≤◌, length};
ghost use Rattle.basics.specs.Lists.{rows};
ghost use Rattle.basics.specs.Readings.{many, onward_of};
ghost use Rattle.rules.specs.Tables.{read_action, decode};
ghost use Rattle.words.specs.Words.{header_words, per_action, table_words, action_of, table_of};
ghost use Rattle.numbers.specs.Answers.{Reads};
ghost use Rattle.table.specs.Answers.{act_of};

use basics::Refusal;
use facts::Action;
use numbers::field;
use rules::Reason;
use rules::limits::MOST_COST;
use words::{HEADER, PER_ACTION};

// One action: three fact sets and a cost.
#[tactic(auto, unfolding(rules::specs::Tables::read_action))]
fn read_action(s: &[u8], at: usize, top: u64) -> Result<(Action, usize), Refusal>
    ensures { act_of result ≡ read_action s.now top at }
{
    let (needs, at) = numbers::set(s, at, top)?;
    let (adds, at) = numbers::set(s, at, top)?;
    let (dels, at) = numbers::set(s, at, top)?;
    let (cost, at) = field(s, at, 0, MOST_COST, Reason::OutOfRange as u64)?;
    Ok((facts::action_of(needs, adds, dels, cost), at))
}

// The actions, in the words behind the header.
fn read_actions(
    s: &[u8],
    at: usize,
    words: &mut [u64],
    n: usize,
    top: u64,
) -> Result<usize, Refusal>
    requires { header_words + per_action * n ≤ length words.old }
    ensures { Reads result (rows (action_of words.new) n) (many (read_action s.now top) n at) header_words words.old words.new }
{
    let mut p = at;
    for k in 0..n {
        let (action, next) = read_action(s, p, top)?;
        words::put_action(words, HEADER + PER_ACTION * k, action);
        p = next;
    }
    Ok(p)
}

// The whole table, into its words.
#[tactic(auto, unfolding(rules::specs::Tables::decode, rules::specs::Tables::closed))]
pub fn read_table(s: &[u8], words: &mut [u64]) -> Result<usize, Refusal>
    requires { table_words ≤ length words.old }
    ensures { onward_of result (table_of words.new) ≡ decode s.now }
{
    let (h, at) = header::read_header(s)?;
    words::put_header(words, h);
    let top = header::all_facts(h.facts);
    let at = read_actions(s, at, words, h.actions as usize, top)?;
    let last = h.actions + h.abstracts - 1;
    let end = methods::read_methods(s, at, words, h.methods as usize, h.actions, last)?;
    if end < s.len() {
        return Err(Reason::BytesAfterTable.at(end as u64));
    }
    Ok(end)
}
