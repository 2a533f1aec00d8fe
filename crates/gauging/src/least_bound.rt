// The least bound of a table, for a form.
ghost use Rattle.std.specs.Prelude.{◌≡◌};
ghost use Rattle.basics.specs.Answers.{reply_of};
ghost use Rattle.rules.specs.Refusals.{find_least};

use basics::Refusal;
use words::Words;

pub fn find_least(form: u64, table: &[u8]) -> Result<u64, Refusal>
    ensures { reply_of result ≡ find_least form table.now }
{
    let mut words = [0u64; words::SIZE];
    match opening::open_formed(form, Ok(()), table, Ok(()), &mut words) {
        Ok(()) => Ok(least::least(Words { all: &words }, form)),
        Err(refusal) => Err(refusal),
    }
}
