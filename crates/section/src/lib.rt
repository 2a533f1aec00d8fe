// One section of a problem.
#![tactic(auto)]

ghost use Rattle.std.specs.Prelude.{◌≡◌, ◌≤◌, length};
ghost use Rattle.basics.specs.Answers.{reply_of, length_of};
ghost use Rattle.rules.specs.Limits.{most_bound};
ghost use Rattle.rules.specs.Sections.{sections_of};
ghost use Rattle.rules.specs.Refusals.{chosen, section_for, written};
ghost use Rattle.words.specs.Words.{table_of};

use basics::Refusal;
use rules::Reason;
use words::Words;

// Section k at the start of the part that is lent, where there is room for it; its length.
pub fn put_section(
    words: Words,
    bound: u64,
    form: u64,
    k: u64,
    part: &mut [u8],
) -> Result<u64, Refusal>
    requires { (1 ≤ bound) × (bound ≤ most_bound) }
    ensures result_value { reply_of result ≡ length_of (chosen (sections_of bound form (table_of words.entry.all.now)) k) }
    ensures part_after { part.new ≡ written part.old 0 (section_for bound form (table_of words.entry.all.now) k (length part.old) 0) }
{
    let variables = problem::variable_count(words, bound);
    if k == 0 {
        return Ok(kinds::put_preamble(words, bound, part) as u64);
    }
    if k <= variables {
        return Ok(kinds::put_variable(words, bound, k - 1, part) as u64);
    }
    if k == variables + 1 {
        return Ok(kinds::put_middle(words, bound, form, part) as u64);
    }
    match problem::find(words, bound, form, k - variables - 2) {
        Ok(place) => {
            let size = kinds::put_operator(words, bound, form, place.step, place.position, part);
            Ok(size as u64)
        }
        Err(over) => {
            if over == 0 {
                return Ok(kinds::put_last(part) as u64);
            }
            Err(Reason::NoSuchSection.at(0))
        }
    }
}
