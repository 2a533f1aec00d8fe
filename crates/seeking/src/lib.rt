// Search for a plan: the table opened, sought through, and the answer for a text of the caller's size.
#![tactic(auto)]

ghost use Rattle.std.specs.Prelude.{◌≡◌, length};
ghost use Rattle.basics.specs.Answers.{after};
ghost use Rattle.rules.specs.Refusals.{search_plan, text_found, written};
ghost use Rattle.replies.specs.Findings.{found_of, figures, figures_in, room_for_figures};

use basics::Refusal;
use replies::Found;
use rules::Reason;
use words::Words;

// A plan found, where a text of so many bytes has room for its own.
fn roomy(found: Found, size: u64) -> Result<Found, Refusal>
    ensures { found_of result ≡ room_for_figures size (figures_in found) }
{
    if size < found.bytes {
        return Err(Reason::NoRoom.at(found.bytes));
    }
    Ok(found)
}

// What a search comes to for a text of `size` bytes, and the plan's text in the bytes that are lent, where they have room for it.
fn search_in(
    bound: u64,
    form: u64,
    limit: u64,
    budget: u64,
    table: &[u8],
    size: u64,
    text: &mut [u8],
) -> Result<Found, Refusal>
    ensures result_value { found_of result ≡ figures (search_plan bound form limit budget table.now size) }
    ensures text_after { text.new ≡ written text.old 0 (text_found (search_plan bound form limit budget table.now (length text.old))) }
{
    let mut words = [0u64; words::SIZE];
    let early = own_checks::limits_hold(limit, budget);
    opening::open(bound, form, early, table, Ok(()), &mut words)?;
    let words = Words { all: &words };
    match finder::seek(words, bound, form, limit as usize, budget, text) {
        Ok(found) => roomy(found, size),
        Err(refusal) => Err(refusal),
    }
}

// The length of the plan's text and the operators applied, and nothing written.
pub fn measure(
    bound: u64,
    form: u64,
    limit: u64,
    budget: u64,
    table: &[u8],
    size: usize,
) -> Result<Found, Refusal>
    ensures { found_of result ≡ figures (search_plan bound form limit budget table.now size) }
{
    search_in(bound, form, limit, budget, table, size as u64, &mut [])
}

// The plan's text from the start of the bytes on.
pub fn write(
    bound: u64,
    form: u64,
    limit: u64,
    budget: u64,
    table: &[u8],
    text: &mut [u8],
) -> Result<Found, Refusal>
    ensures result_value { found_of result ≡ figures (search_plan bound form limit budget table.now (length text.old)) }
    ensures text_after { text.new ≡ written text.old 0 (text_found (search_plan bound form limit budget table.now (length text.old))) }
{
    let size = text.len() as u64;
    search_in(bound, form, limit, budget, table, size, text)
}
