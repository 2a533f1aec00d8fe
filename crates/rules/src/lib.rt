// The numbers of document 01 by name, and the types that contracts share. The definitions are in specs/.
#![tactic(auto)]

pub mod limits;
pub mod reasons;

pub use reasons::Reason;

// What an accepted plan comes to.
#[derive(Clone, Copy)]
pub struct Tally {
    pub cost: u64,
    pub operators: u64,
    pub steps: u64,
}

// What an operator begins with.
#[derive(Clone, Copy)]
pub enum Kind {
    Action,
    Method,
}

// An operator as a plan's line names it: which action or method, and at which position.
#[derive(Clone, Copy)]
pub struct Operator {
    pub kind: Kind,
    pub number: u64,
    pub position: u64,
}
