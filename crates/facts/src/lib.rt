// Fact sets. Only this crate knows what a set is in memory: a mask, whose bit k stands for fact k.
#![tactic(auto)]

ghost use Rattle.std.specs.Prelude.{◌≡◌, ℕ, not, ◌+◌, ◌<◌, ◌≤◌, length, IfSome};
ghost use Rattle.std.specs.Int.Bits.{bit_and, bit_or};
ghost use Rattle.std.specs.Int.Count.{ones};
ghost use Rattle.rules.specs.Limits.{most_facts};
ghost use Rattle.rules.specs.Facts.{has, empty, holds, changed, without, members_of, join_one, no_join};
ghost use Rattle.facts.specs.Sets.{set_words, set_of, set_at, set_put, members_read, action_read, join_read};

// The words that a set takes, and an action: three sets and a cost.
pub const WORDS: usize = 1;

pub const ACTION_WORDS: usize = 3 * WORDS + 1;

#[derive(Clone, Copy)]
pub struct Set {
    bits: u64,
}

// A set as a table's number has it.
pub fn set_of(number: u64) -> Set
    ensures { set_of result ≡ number }
{
    Set { bits: number }
}

// The set in the words from a place on.
pub fn get(words: &[u64], at: usize) -> Set
    requires { at + set_words ≤ length words.now }
    ensures { set_of result ≡ set_at words.now at }
{
    Set { bits: words[at] }
}

pub fn put(words: &mut [u64], at: usize, s: Set)
    requires { at + set_words ≤ length words.old }
    ensures { words.new ≡ set_put words.old at (set_of s) }
{
    words[at] = s.bits;
}

// What sets are made of: union, difference, and what two have in common.
impl Set {
    fn with(self, other: Set) -> Set
        ensures { set_of result ≡ bit_or (set_of self) (set_of other) }
    {
        Set {
            bits: self.bits | other.bits,
        }
    }

    fn without(self, other: Set) -> Set
        ensures { set_of result ≡ without (set_of self) (set_of other) }
    {
        Set {
            bits: self.bits & !other.bits,
        }
    }

    fn meets(self, other: Set) -> bool
        ensures { result ≡ not (empty (bit_and (set_of self) (set_of other))) }
    {
        self.bits & other.bits != 0
    }
}

// Whether fact k is in the set.
pub fn has(s: Set, k: u64) -> bool
    requires { k < most_facts }
    ensures { result ≡ has (set_of s) k }
{
    s.bits >> k & 1 == 1
}

// How many facts the set has.
pub fn count(s: Set) -> u64
    ensures value { result ≡ ones (set_of s) }
    ensures upper_bound { result ≤ most_facts }
{
    s.bits.count_ones() as u64
}

// The facts of a set, rising: the lowest, and a set of the others.
#[derive(Clone, Copy)]
pub struct Members {
    pub fact: u64,
    pub others: Set,
}

// One step of a walk over a set. The zeros below the lowest bit are as many as its fact's number; less one, that bit is clear and
// those above it stay.
pub fn walk(s: Set) -> Option<Members>
    ensures members { (n : ℕ) → n ≤ most_facts → members_read n result ≡ members_of n (set_of s) }
    ensures fact { IfSome result (λ m. m.fact < most_facts) }
{
    let bits = s.bits;
    if bits == 0 {
        return None;
    }
    let fact = bits.trailing_zeros() as u64;
    let less = bits - 1;
    let others = Set { bits: bits & less };
    Some(Members { fact, others })
}

// Whether all needed facts are among the facts.
pub fn holds(needs: Set, facts: Set) -> bool
    ensures { result ≡ holds (set_of needs) (set_of facts) }
{
    needs.without(facts).bits == 0
}

// The old facts without the deletes, then with the adds.
pub fn changed(dels: Set, adds: Set, old: Set) -> Set
    ensures { set_of result ≡ changed (set_of dels) (set_of adds) (set_of old) }
{
    old.without(dels).with(adds)
}

// The facts that prevail: those needed and not deleted.
pub fn kept(needs: Set, dels: Set) -> Set
    ensures { set_of result ≡ without (set_of needs) (set_of dels) }
{
    needs.without(dels)
}

// The facts that change: those deleted, and those added and not needed.
pub fn altered(needs: Set, adds: Set, dels: Set) -> Set
    ensures { set_of result ≡ bit_or (set_of dels) (without (set_of adds) (set_of needs)) }
{
    let gained = adds.without(needs);
    dels.with(gained)
}

// An action, as a table has it.
#[derive(Clone, Copy)]
pub struct Action {
    pub needs: Set,
    pub adds: Set,
    pub dels: Set,
    pub cost: u64,
}

// The action that four numbers of a table stand for.
pub fn action_of(needs: u64, adds: u64, dels: u64, cost: u64) -> Action
    ensures { action_read result ≡ record { needs = needs; adds = adds; dels = dels; cost = cost } }
{
    Action {
        needs: set_of(needs),
        adds: set_of(adds),
        dels: set_of(dels),
        cost,
    }
}

// The joined sets of some actions, one after the other; `dead`: they can never run so.
#[derive(Clone, Copy)]
pub struct Join {
    pub needs: Set,
    pub adds: Set,
    pub dels: Set,
    pub dead: bool,
}

// No action yet.
pub fn no_join() -> Join
    ensures { join_read result ≡ no_join }
{
    let none = set_of(0);
    Join {
        needs: none,
        adds: none,
        dels: none,
        dead: false,
    }
}

// One action more.
pub fn join_one(j: Join, a: Action) -> Join
    ensures { join_read result ≡ join_one (join_read j) (action_read a) }
{
    let open = a.needs.without(j.adds);
    let gone = j.dels.with(a.dels);
    Join {
        needs: j.needs.with(open),
        adds: changed(a.dels, a.adds, j.adds),
        dels: gone.without(a.adds),
        dead: j.dead | a.needs.meets(j.dels),
    }
}
