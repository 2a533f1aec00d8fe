// What stands before the actions of a table: seven numbers, each checked against its range.
#![tactic(auto)]

ghost use Rattle.std.specs.Prelude.{◌≡◌, ◌≤◌};
ghost use Rattle.rules.specs.Limits.{most_facts};
ghost use Rattle.rules.specs.Tables.{all_facts, header};
ghost use Rattle.header.specs.Answers.{head_of};

use basics::Refusal;
use numbers::field;
use rules::Reason;
use rules::limits::{MOST_ACTIONS, MOST_FACTS, MOST_METHODS, MOST_TASKS};
use words::Header;

// The greatest set of the first f facts.
pub fn all_facts(f: u64) -> u64
    requires { f ≤ most_facts }
    ensures { result ≡ all_facts f }
{
    if f == MOST_FACTS {
        return 0xffff_ffff_ffff_ffff;
    }
    (1u64 << f) - 1
}

// The header, and the place after it.
#[tactic(auto, unfolding(rules::specs::Tables::header))]
pub fn read_header(s: &[u8]) -> Result<(Header, usize), Refusal>
    ensures { head_of result ≡ header s.now 0 }
{
    let (facts, at) = field(s, 0, 0, MOST_FACTS, Reason::OutOfRange as u64)?;
    let (actions, at) = field(s, at, 0, MOST_ACTIONS, Reason::OutOfRange as u64)?;
    let (abstracts, at) = field(s, at, 1, MOST_TASKS - actions, Reason::OutOfRange as u64)?;
    let (methods, at) = field(s, at, 0, MOST_METHODS, Reason::OutOfRange as u64)?;
    let last = actions + abstracts - 1;
    let (start, at) = field(s, at, actions, last, Reason::NotThere as u64)?;
    let top = all_facts(facts);
    let (init, at) = field(s, at, 0, top, Reason::NotThere as u64)?;
    let (goal, at) = field(s, at, 0, top, Reason::NotThere as u64)?;
    let header = Header {
        facts,
        actions,
        abstracts,
        methods,
        start,
        init: facts::set_of(init),
        goal: facts::set_of(goal),
    };
    Ok((header, at))
}
