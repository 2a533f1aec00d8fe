// One line of a plan text, where a line feed is ahead.
#![tactic(auto)]

ghost use Rattle.std.specs.Prelude.{◌≡◌, ◌+◌, IfSome};
ghost use Rattle.line_ends.specs.Ends.{Fed};
ghost use Rattle.lines.specs.Places.{digit_of, small_at, kind_of, operator_at};
ghost use Rattle.lines.specs.Lines.{IsLine};

use rules::{Kind, Operator};

// `(a0 1)` and its line feed.
pub const SHORTEST_LINE: usize = 7;

// What stands in a line, and the next place.
#[derive(Clone, Copy)]
pub enum Line {
    Operator(Operator, usize),
    Comment(usize),
}

// What a digit counts: one test, on the number that is used.
fn digit(byte: u8) -> Option<u64>
    ensures { result ≡ digit_of byte }
{
    let value = (byte as u64).wrapping_sub(b'0' as u64);
    (value < 10).then_some(value)
}

// A number of one to three digits, and the place after it.
#[tactic(auto, using(line_ends::proofs::EndLaws::fed_inside, line_ends::proofs::EndLaws::fed_on), unfolding(crate::specs::Places::small_at))]
fn small(s: &[u8], at: usize) -> Option<(u64, usize)>
    requires { Fed s.now at }
    ensures value { result ≡ small_at s.now at }
    ensures ahead { IfSome result (λ read. Fed s.now read.1) }
{
    let a = digit(s[at])?;
    let Some(b) = digit(s[at + 1]) else {
        return Some((a, at + 1));
    };
    if a == 0 {
        return None;
    }
    let two = a * 10 + b;
    let Some(c) = digit(s[at + 2]) else {
        return Some((two, at + 2));
    };
    Some((two * 10 + c, at + 3))
}

fn kind_of(letter: u8) -> Option<Kind>
    ensures { result ≡ kind_of letter }
{
    match letter {
        b'a' => Some(Kind::Action),
        b'm' => Some(Kind::Method),
        _ => None,
    }
}

// What follows the opening bracket.
#[tactic(auto, using(line_ends::proofs::EndLaws::fed_inside, line_ends::proofs::EndLaws::fed_on, line_ends::proofs::EndLaws::end_most), unfolding(crate::specs::Places::operator_at))]
fn operator(s: &[u8], at: usize) -> Option<Line>
    requires { Fed s.now (at + 1) }
    ensures { result ≡ operator_at s.now at }
{
    let kind = kind_of(s[at + 1])?;
    let (number, space) = small(s, at + 2)?;
    if s[space] != b' ' {
        return None;
    }
    let (position, bracket) = small(s, space + 1)?;
    if s[bracket] != b')' {
        return None;
    }
    let operator = Operator {
        kind,
        number,
        position,
    };
    // Each end has its way on, and no `?`: with it the ends are joined and the place is computed from a count, three in a hundred instructions more.
    match line_ends::end_bytes(s, bracket + 1) {
        None => None,
        Some(1) => Some(Line::Operator(operator, bracket + 2)),
        Some(_) => Some(Line::Operator(operator, bracket + 3)),
    }
}

// The line at a place.
#[tactic(auto, using(line_ends::proofs::EndLaws::fed_inside, line_ends::proofs::EndLaws::fed_on))]
pub fn line_at(s: &[u8], at: usize) -> Option<Line>
    requires { Fed s.now at }
    ensures { IsLine s.now at result }
{
    match s[at] {
        b'(' => operator(s, at),
        b';' => Some(Line::Comment(line_ends::feed_from(s, at) + 1)),
        _ => None,
    }
}
