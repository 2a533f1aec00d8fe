// The opening of a table, with which every entry begins. "Checks run in this order, an entry skipping what it lacks": bound, form,
// a check of the entry's own, the table's length, another, the table.
#![tactic(auto)]

ghost use Rattle.std.specs.Prelude.{◌≤◌, length};
ghost use Rattle.words.specs.Words.{table_words};
ghost use Rattle.opening.specs.Openings.{Opens, Read, Formed, Usable, own, read_after, formed_after, opened_after};

use basics::Refusal;
use rules::Reason;
use rules::limits::{MOST_BOUND, MOST_TABLE_BYTES};

// For entries with bound and form: the table stands in the words, or it is refused. `early` and `late` are the entry's own checks.
pub fn open(
    bound: u64,
    form: u64,
    early: Result<(), Refusal>,
    table: &[u8],
    late: Result<(), Refusal>,
    words: &mut [u64],
) -> Result<(), Refusal>
    requires { table_words ≤ length words.old }
    ensures { Opens (opened_after (own early) (own late) bound form table.now) (Usable (own early) (own late) bound form words.new) result words.new }
{
    if bound < 1 {
        return Err(Reason::BadBound.at(0));
    }
    if MOST_BOUND < bound {
        return Err(Reason::BadBound.at(0));
    }
    open_formed(form, early, table, late, words)
}

// For entries with a form and no bound. A form stays a number, also where it was judged: what is called with it promises for every number.
pub fn open_formed(
    form: u64,
    early: Result<(), Refusal>,
    table: &[u8],
    late: Result<(), Refusal>,
    words: &mut [u64],
) -> Result<(), Refusal>
    requires { table_words ≤ length words.old }
    ensures { Opens (formed_after (own early) (own late) form table.now) (Formed (own early) (own late) form words.new) result words.new }
{
    if 1 < form {
        return Err(Reason::BadForm.at(0));
    }
    early?;
    open_table(table, late, words)
}

// The table's length, the second check, the table.
fn open_table(table: &[u8], late: Result<(), Refusal>, words: &mut [u64]) -> Result<(), Refusal>
    requires { table_words ≤ length words.old }
    ensures { Opens (read_after (own late) table.now) (Read (own late) words.new) result words.new }
{
    if MOST_TABLE_BYTES < table.len() {
        return Err(Reason::TableTooLong.at(0));
    }
    late?;
    table::read_table(table, words)?;
    Ok(())
}
