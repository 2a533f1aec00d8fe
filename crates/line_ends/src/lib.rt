// Where the lines of a plan text end. The last line feed is found first: up to it no byte is tested for being there.
#![tactic(auto)]

ghost use Rattle.std.specs.Prelude.{◌≡◌, ◌+◌, ◌<◌, length, drop};
ghost use Rattle.line_ends.specs.Ends.{some_bytes, end_bytes, feed_at, Fed, Whole};

const LINE_FEED: u8 = b'\n';

const CARRIAGE_RETURN: u8 = b'\r';

// How many bytes end an operator's line at a place. The line feed comes first: it is the usual end.
#[tactic(auto, using(crate::proofs::EndLaws::fed_inside, crate::proofs::EndLaws::fed_on), unfolding(crate::specs::Ends::end_bytes))]
pub fn end_bytes(s: &[u8], at: usize) -> Option<usize>
    requires { Fed s.now at }
    ensures { result ≡ some_bytes (end_bytes s.now at) }
{
    match s[at] {
        LINE_FEED => Some(1),
        CARRIAGE_RETURN if s[at + 1] == LINE_FEED => Some(2),
        _ => None,
    }
}

// The place of the first line feed from `at` on. By hand, since one comes: `position` would ask at each byte whether the text ends.
#[tactic(auto, using(crate::proofs::EndLaws::fed_inside, crate::proofs::EndLaws::fed_on, crate::proofs::EndLaws::feed_stop, crate::proofs::EndLaws::feed_more))]
pub fn feed_from(s: &[u8], at: usize) -> usize
    requires { Fed s.now at }
    ensures { (result ≡ at + feed_at (drop at s.now)) × (result < length s.now) }
{
    let mut i = at;
    while s[i] != LINE_FEED {
        i += 1;
    }
    i
}

// How many bytes the text has up to its last line feed.
pub fn whole_lines(s: &[u8]) -> usize
    ensures { Whole s.now result }
{
    match s.iter().rposition(|&b| b == LINE_FEED) {
        Some(last) => last + 1,
        None => 0,
    }
}
