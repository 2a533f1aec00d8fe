// One number of a table: groups of seven bits, checked against a range; and what reading more of them into words comes to.
#![tactic(auto)]

ghost use Rattle.std.specs.Prelude.{◌≡◌, ◌+◌, ◌-◌, ◌*◌, ◌^◌, ◌≤◌, ◌<◌, length, drop, get_or, IfOk};
ghost use Rattle.std.proofs.Math.Seq.{slice};
ghost use Rattle.rules.specs.Numbers.{groups_before, groups_value, sound, read_number, ranged};
ghost use Rattle.rules.specs.Reasons.{not_there};
ghost use Rattle.numbers.specs.Answers.{num_of, IsLast};

use basics::Refusal;
use rules::Reason;

// Where the last group of the number at `at` stands: the first byte below 128, if there is one.
fn last(s: &[u8], at: usize) -> Option<usize>
    ensures { IsLast s.now at result }
{
    for i in at..s.len() {
        if s[i] < 128 {
            return Some(i);
        }
    }
    None
}

// May a last group b stand after k others?
fn shortest(k: usize, b: u64) -> bool
    ensures { result ≡ sound k b }
{
    if k == 0 {
        return true;
    }
    if b == 0 {
        return false;
    }
    if k < 9 {
        return true;
    }
    if k == 9 {
        return b <= 1;
    }
    false
}

// What the groups from `at` to `e` stand for.
fn value(s: &[u8], at: usize, e: usize) -> u64
    requires { (at ≤ e) × (e < length s.now) × (get_or s.now e 0 < 128) × (e - at ≤ 9) × (get_or s.now e 0 < 2 * 128 ^ (9 - (e - at))) }
    ensures { result ≡ groups_value (slice at (e + 1) s.now) }
{
    let mut v = u64::from(s[e]);
    for i in (at..e).rev() {
        v = v * 128 + u64::from(s[i]) % 128;
    }
    v
}

// One number, by its last group: the way for numbers near the end of the table and for those at fault.
fn slow(s: &[u8], at: usize) -> Result<(u64, usize), Refusal>
    ensures { num_of result ≡ read_number s.now at }
{
    let Some(e) = last(s, at) else {
        return Err(Reason::TableEnds.at(at as u64));
    };
    if shortest(e - at, u64::from(s[e])) {
        Ok((value(s, at, e), e + 1))
    } else {
        Err(Reason::BadNumber.at(at as u64))
    }
}

// One number with at least ten bytes there, group by group. The loop has a fixed count and is unrolled.
fn long(s: &[u8], at: usize) -> Result<(u64, usize), Refusal>
    ensures { num_of result ≡ read_number s.now at }
{
    let n = s.len();
    if n < 10 {
        return slow(s, at);
    }
    if n - 10 < at {
        return slow(s, at);
    }
    let b0 = u64::from(s[at]);
    if b0 < 128 {
        return slow(s, at);
    }
    let mut v = b0 % 128;
    let mut scale: u64 = 128;
    for j in 1..9 {
        let b = u64::from(s[at + j]);
        if b < 128 {
            if b == 0 {
                return Err(Reason::BadNumber.at(at as u64));
            }
            return Ok((v + b * scale, at + j + 1));
        }
        v += b % 128 * scale;
        scale *= 128;
    }
    let b9 = u64::from(s[at + 9]);
    if b9 == 1 {
        return Ok((v + 0x8000_0000_0000_0000, at + 10));
    }
    slow(s, at)
}

// One number. One or two groups are read here; `long` has a second caller, `set`, so that it stays a call.
fn number(s: &[u8], at: usize) -> Result<(u64, usize), Refusal>
    ensures { num_of result ≡ read_number s.now at }
{
    let n = s.len();
    if at < n {
        let a = u64::from(s[at]);
        let next = at + 1;
        if a < 128 {
            return Ok((a, next));
        }
        if next < n {
            let b = u64::from(s[next]);
            if b < 128 {
                let zero = b == 0;
                if zero {
                    return Err(Reason::BadNumber.at(at as u64));
                }
                return Ok((a % 128 + b * 128, next + 1));
            }
        }
    }
    long(s, at)
}

// One fact set, a number up to hi: one group or many.
#[tactic(auto, unfolding(rules::specs::Numbers::ranged, rules::specs::Numbers::in_range))]
pub fn set(s: &[u8], at: usize, hi: u64) -> Result<(u64, usize), Refusal>
    ensures { num_of result ≡ ranged s.now 0 hi not_there at }
{
    let n = s.len();
    if at < n {
        let a = u64::from(s[at]);
        if a < 128 {
            if hi < a {
                return Err(Reason::NotThere.at(at as u64));
            }
            return Ok((a, at + 1));
        }
    }
    let (v, next) = long(s, at)?;
    if hi < v {
        return Err(Reason::NotThere.at(at as u64));
    }
    Ok((v, next))
}

// One number from lo to hi, or the refusal `why` where it is not: a number and no Reason, since what is promised here is promised of each.
#[tactic(auto, unfolding(rules::specs::Numbers::ranged, rules::specs::Numbers::in_range))]
pub fn field(s: &[u8], at: usize, lo: u64, hi: u64, why: u64) -> Result<(u64, usize), Refusal>
    ensures reading { num_of result ≡ ranged s.now lo hi why at }
    ensures in_range { IfOk result (λ r. (lo ≤ r.0) × (r.0 ≤ hi)) }
{
    let (v, next) = number(s, at)?;
    let refused = Refusal {
        number: why,
        place: at as u64,
    };
    if v < lo {
        return Err(refused);
    }
    if hi < v { Err(refused) } else { Ok((v, next)) }
}
