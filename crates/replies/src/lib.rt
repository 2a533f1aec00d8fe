// The numbers of an answer, one at a time: with a refusal every number but its own two is 0.
#![tactic(auto)]

ghost use Rattle.std.specs.Prelude.{◌≡◌};
ghost use Rattle.basics.specs.Answers.{number_of, place_of, value_of, reply_of, answer_of, itself};
ghost use Rattle.rules.specs.Checks.{verdict_of, cost_of, operators_in, steps_in};
ghost use Rattle.replies.specs.Findings.{found_of, bytes_in, applied_of};

use basics::Refusal;
use rules::Tally;

// A plan found: how many bytes its text takes, and how many operators were applied for it.
#[derive(Clone, Copy)]
pub struct Found {
    pub bytes: u64,
    pub applied: u64,
}

// A refusal's number and place, whatever the result would be.
pub fn number<T: Copy>(answer: Result<T, Refusal>) -> u64
    ensures { result ≡ number_of (answer_of (λ x. x) answer) }
{
    match answer {
        Ok(_) => 0,
        Err(refusal) => refusal.number,
    }
}

pub fn place<T: Copy>(answer: Result<T, Refusal>) -> u64
    ensures { result ≡ place_of (answer_of (λ x. x) answer) }
{
    match answer {
        Ok(_) => 0,
        Err(refusal) => refusal.place,
    }
}

pub fn value(reply: Result<u64, Refusal>) -> u64
    ensures { result ≡ value_of itself (reply_of reply) }
{
    reply.unwrap_or(0)
}

// A number of a verdict and of a plan found, by its name: C has a call for each.
pub fn cost(verdict: Result<Tally, Refusal>) -> u64
    ensures { result ≡ value_of cost_of (verdict_of verdict) }
{
    verdict.map_or(0, |tally| tally.cost)
}

pub fn operators(verdict: Result<Tally, Refusal>) -> u64
    ensures { result ≡ value_of operators_in (verdict_of verdict) }
{
    verdict.map_or(0, |tally| tally.operators)
}

pub fn steps(verdict: Result<Tally, Refusal>) -> u64
    ensures { result ≡ value_of steps_in (verdict_of verdict) }
{
    verdict.map_or(0, |tally| tally.steps)
}

pub fn bytes(finding: Result<Found, Refusal>) -> u64
    ensures { result ≡ value_of bytes_in (found_of finding) }
{
    finding.map_or(0, |found| found.bytes)
}

pub fn applied(finding: Result<Found, Refusal>) -> u64
    ensures { result ≡ value_of applied_of (found_of finding) }
{
    finding.map_or(0, |found| found.applied)
}
