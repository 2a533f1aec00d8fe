// One section of a problem, measured, or written into the caller's text from a place on.
#![tactic(auto)]

ghost use Rattle.std.specs.Prelude.{◌≡◌, ◌≤◌, length};
ghost use Rattle.basics.specs.Answers.{reply_of, length_of};
ghost use Rattle.rules.specs.Limits.{most_bound};
ghost use Rattle.rules.specs.Refusals.{section_for, one_section, written};
ghost use Rattle.words.specs.Words.{table_of};

use basics::Refusal;
use words::Words;

// The length of a section of an opened table where there is room for it from the place on: no byte is lent to be written.
fn measured(
    words: Words,
    bound: u64,
    form: u64,
    index: u64,
    size: usize,
    at: u64,
) -> Result<u64, Refusal>
    requires { (1 ≤ bound) × (bound ≤ most_bound) }
    ensures { reply_of result ≡ length_of (section_for bound form (table_of words.entry.all.now) index size at) }
{
    let mut none = [0u8; 0];
    rooms::reply_for(
        section::put_section(words, bound, form, index, &mut none),
        size as u64,
        at,
    )
}

// The section's length, and nothing written.
pub fn measure(
    bound: u64,
    form: u64,
    table: &[u8],
    index: u64,
    size: usize,
    at: u64,
) -> Result<u64, Refusal>
    ensures { reply_of result ≡ length_of (one_section bound form table.now index size at) }
{
    let mut words = [0u64; words::SIZE];
    opening::open(bound, form, Ok(()), table, Ok(()), &mut words)?;
    measured(Words { all: &words }, bound, form, index, size, at)
}

// The section at the start of the part that is lent, where there is room for it; its length.
fn put(words: Words, bound: u64, form: u64, index: u64, part: &mut [u8]) -> Result<u64, Refusal>
    requires { (1 ≤ bound) × (bound ≤ most_bound) }
    ensures result_value { reply_of result ≡ length_of (section_for bound form (table_of words.entry.all.now) index (length part.old) 0) }
    ensures part_after { part.new ≡ written part.old 0 (section_for bound form (table_of words.entry.all.now) index (length part.old) 0) }
{
    let size = part.len() as u64;
    rooms::reply_for(
        section::put_section(words, bound, form, index, part),
        size,
        0,
    )
}

// The section in the text from the place on, and its length. A place past the end is no room: there the section is only measured.
pub fn write(
    bound: u64,
    form: u64,
    table: &[u8],
    index: u64,
    text: &mut [u8],
    at: u64,
) -> Result<u64, Refusal>
    ensures result_value { reply_of result ≡ length_of (one_section bound form table.now index (length text.old) at) }
    ensures text_after { text.new ≡ written text.old at (one_section bound form table.now index (length text.old) at) }
{
    let mut words = [0u64; words::SIZE];
    opening::open(bound, form, Ok(()), table, Ok(()), &mut words)?;
    let from = at as usize;
    if text.len() < from {
        return measured(Words { all: &words }, bound, form, index, text.len(), at);
    }
    put(Words { all: &words }, bound, form, index, &mut text[from..])
}
