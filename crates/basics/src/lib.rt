// What the chapters of document 01 and the format of problems share. The definitions are in specs/; there is no function here.
#![tactic(auto)]

// A refusal: its number, and the place at fault. What an entry answers is a result or this. The number is a number and no Reason of `rules`,
// since what takes or hands on a refusal promises for each (rooms::reply_for, replies::number, opening::open).
#[derive(Clone, Copy)]
pub struct Refusal {
    pub number: u64,
    pub place: u64,
}
