// The lines of the facts of a set. No other writer walks over a set.
#![tactic(auto)]

ghost use Rattle.std.specs.Prelude.{cond, ◌+◌, ◌≤◌, ◌<◌, max, length};
ghost use Rattle.version3.specs.Spelling.{spell_setting, spell_effect};
ghost use Rattle.rules.specs.Limits.{most_facts};
ghost use Rattle.rules.specs.Problems.{set, fact_effect};
ghost use Rattle.facts.specs.Sets.{set_of};
ghost use Rattle.text.specs.Puts.{Puts, farthest};
ghost use Rattle.listing.specs.Listings.{hold_bytes, change_bytes, line_where, list_text, line_bytes, list_bytes};

use facts::Set;

// What a list says of each of its facts, an enum and no closure, since contracts say the bytes of both: that it holds, or how it changes, by the facts that are needed and those that are deleted.
#[derive(Clone, Copy)]
pub enum Says {
    Holds,
    Changes(Set, Set),
}

// That fact k holds.
fn put_holds(out: &mut [u8], at: usize, k: u64) -> usize
    requires { (at + hold_bytes ≤ farthest) × (k < most_facts) }
    ensures puts { Puts out.old at (spell_setting (set k 0)) out.new result }
    ensures upper_bound { result ≤ at + hold_bytes }
{
    let next = text::put_field(out, at, b"", k);
    text::put(out, next, b" 0\n")
}

// One of two texts.
fn put_either(out: &mut [u8], at: usize, first: bool, one: &[u8], other: &[u8]) -> usize
    requires { at + max (length one.now) (length other.now) ≤ farthest }
    ensures puts { Puts out.old at (cond first one.now other.now) out.new result }
    ensures upper_bound { result ≤ at + max (length one.now) (length other.now) }
{
    if first {
        return text::put(out, at, one);
    }
    text::put(out, at, other)
}

// How fact k changes. Before: a needed fact holds, of any other nothing is said. After: a deleted fact no longer holds, an added one does.
fn put_change(out: &mut [u8], at: usize, needs: Set, dels: Set, k: u64) -> usize
    requires { (at + change_bytes ≤ farthest) × (k < most_facts) }
    ensures puts { Puts out.old at (spell_effect (fact_effect (set_of needs) (set_of dels) k)) out.new result }
    ensures upper_bound { result ≤ at + change_bytes }
{
    let value = text::put_field(out, at, b"0 ", k);
    let next = put_either(out, value, facts::has(needs, k), b" 0 ", b" -1 ");
    put_either(out, next, facts::has(dels, k), b"1\n", b"0\n")
}

// The line of fact k, where the set has it.
fn put_line(out: &mut [u8], at: usize, says: Says, set: Set, k: u64) -> usize
    requires { (at + line_bytes says ≤ farthest) × (k < most_facts) }
    ensures puts { Puts out.old at (line_where says (set_of set) k) out.new result }
    ensures upper_bound { result ≤ at + line_bytes says }
{
    if !facts::has(set, k) {
        return at;
    }
    match says {
        Says::Holds => put_holds(out, at, k),
        Says::Changes(needs, dels) => put_change(out, at, needs, dels, k),
    }
}

// The lines of the facts of a set, of n facts in all.
pub fn put_lines(out: &mut [u8], at: usize, says: Says, set: Set, n: u64) -> usize
    requires { (at + list_bytes says ≤ farthest) × (n ≤ most_facts) }
    ensures puts { Puts out.old at (list_text says n (set_of set)) out.new result }
    ensures upper_bound { result ≤ at + list_bytes says }
{
    let mut next = at;
    for k in 0..n {
        next = put_line(out, next, says, set, k);
    }
    next
}
