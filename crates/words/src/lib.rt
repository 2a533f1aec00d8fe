// A table in memory, number by number: callers need not know where anything stands.
#![tactic(auto)]

ghost use Rattle.std.specs.Prelude.{◌≡◌, ◌+◌, ◌≤◌, ◌<◌, length, get_or, take};
ghost use Rattle.rules.specs.Tables.{fact_count, action_count, task_count, method_count, start_task, start_facts, goal_facts, action, method};
ghost use Rattle.facts.specs.Sets.{set_of, action_read};
ghost use Rattle.words.specs.Words.{header_words, per_action, header_of, header_read, action_at, table_of, Held};

use facts::{Action, Set};
use rules::limits::{MOST_ACTIONS, MOST_METHODS};

// Where the sets of a header stand, after five numbers; how many words a header, an action and a method take; where the methods
// begin; how many words a table takes. The contracts say them by the names of specs/Words.
const START: usize = 5;

const GOAL: usize = START + facts::WORDS;

pub const HEADER: usize = GOAL + facts::WORDS;

pub const PER_ACTION: usize = facts::ACTION_WORDS;

pub const PER_METHOD: usize = 10;

pub const FIRST_METHOD: usize = HEADER + PER_ACTION * MOST_ACTIONS as usize;

pub const SIZE: usize = FIRST_METHOD + PER_METHOD * MOST_METHODS as usize;

// A table that was read, by the words that hold it.
#[derive(Clone, Copy)]
pub struct Words<'a> {
    pub all: &'a [u64],
    pub ghost held: { Held all.now },
}

impl<'a> Words<'a> {
    pub fn fact_count(self) -> u64
        ensures { result ≡ fact_count (table_of self.entry.all.now) }
    {
        self.all[0]
    }

    pub fn action_count(self) -> u64
        ensures { result ≡ action_count (table_of self.entry.all.now) }
    {
        self.all[1]
    }

    // Actions and abstract tasks.
    pub fn task_count(self) -> u64
        ensures { result ≡ task_count (table_of self.entry.all.now) }
    {
        self.all[1] + self.all[2]
    }

    pub fn method_count(self) -> usize
        ensures { result ≡ method_count (table_of self.entry.all.now) }
    {
        self.all[3] as usize
    }

    pub fn start_task(self) -> u64
        ensures { result ≡ start_task (table_of self.entry.all.now) }
    {
        self.all[4]
    }

    pub fn start_facts(self) -> Set
        ensures { set_of result ≡ start_facts (table_of self.entry.all.now) }
    {
        facts::get(self.all, START)
    }

    pub fn goal_facts(self) -> Set
        ensures { set_of result ≡ goal_facts (table_of self.entry.all.now) }
    {
        facts::get(self.all, GOAL)
    }

    pub fn action_at(self, k: usize) -> Action
        requires { (k < action_count (table_of self.all.now)) }
        ensures { action_read result ≡ action (table_of self.entry.all.now) k }
    {
        let b = HEADER + PER_ACTION * k;
        Action {
            needs: facts::get(self.all, b),
            adds: facts::get(self.all, b + facts::WORDS),
            dels: facts::get(self.all, b + 2 * facts::WORDS),
            cost: self.all[b + 3 * facts::WORDS],
        }
    }

    pub fn head_of(self, k: usize) -> usize
        requires { (k < method_count (table_of self.all.now)) }
        ensures { result ≡ (method (table_of self.entry.all.now) k).head }
    {
        self.all[FIRST_METHOD + PER_METHOD * k] as usize
    }

    // How many subtasks method k has.
    pub fn width_of(self, k: usize) -> usize
        requires { (k < method_count (table_of self.all.now)) }
        ensures { result ≡ length (method (table_of self.entry.all.now) k).subs }
    {
        self.all[FIRST_METHOD + PER_METHOD * k + 1] as usize
    }

    pub fn subtask(self, k: usize, j: usize) -> usize
        requires { (k < method_count (table_of self.all.now)) × (j < length (method (table_of self.all.now) k).subs) }
        ensures { result ≡ get_or (method (table_of self.entry.all.now) k).subs j 0 }
    {
        let b = FIRST_METHOD + PER_METHOD * k + 2;
        self.all[b + j] as usize
    }
}

// What stands before the actions.
#[derive(Clone, Copy)]
pub struct Header {
    pub facts: u64,
    pub actions: u64,
    pub abstracts: u64,
    pub methods: u64,
    pub start: u64,
    pub init: Set,
    pub goal: Set,
}

// A header in the first words.
pub fn put_header(words: &mut [u64], h: Header)
    requires { header_words ≤ length words.old }
    ensures { header_of words.new ≡ header_read h }
{
    words[0] = h.facts;
    words[1] = h.actions;
    words[2] = h.abstracts;
    words[3] = h.methods;
    words[4] = h.start;
    facts::put(words, START, h.init);
    facts::put(words, GOAL, h.goal);
}

// An action in the words from b on.
pub fn put_action(words: &mut [u64], b: usize, a: Action)
    requires { b + per_action ≤ length words.old }
    ensures { (take b words.new ≡ take b words.old) × (action_at words.new b ≡ action_read a) }
{
    facts::put(words, b, a.needs);
    facts::put(words, b + facts::WORDS, a.adds);
    facts::put(words, b + 2 * facts::WORDS, a.dels);
    words[b + 3 * facts::WORDS] = a.cost;
}
