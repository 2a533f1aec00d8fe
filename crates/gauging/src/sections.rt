// Count the sections of a problem.
ghost use Rattle.std.specs.Prelude.{◌≡◌};
ghost use Rattle.basics.specs.Answers.{reply_of};
ghost use Rattle.rules.specs.Refusals.{count_sections};

use basics::Refusal;
use words::Words;

pub fn count_sections(bound: u64, form: u64, table: &[u8]) -> Result<u64, Refusal>
    ensures { reply_of result ≡ count_sections bound form table.now }
{
    let mut words = [0u64; words::SIZE];
    opening::open(bound, form, Ok(()), table, Ok(()), &mut words)?;
    Ok(problem::section_count(Words { all: &words }, bound, form))
}
