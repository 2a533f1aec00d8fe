// Expand a plan into steps.
ghost use Rattle.std.specs.Prelude.{◌≡◌, length};
ghost use Rattle.basics.specs.Answers.{number_of, place_of, value_of};
ghost use Rattle.rules.specs.Refusals.{expand_plan, written};

pub fn ildorzhen_expand_number(
    bound: u64,
    form: u64,
    table: &[u8],
    plan: &[u8],
    steps: &[u8],
) -> u64
    ensures { result ≡ number_of (expand_plan bound form table.now plan.now (length steps.now)) }
{
    replies::number(judging::expanding::measure(bound, form, table, plan, steps.len()))
}

pub fn ildorzhen_expand_place(bound: u64, form: u64, table: &[u8], plan: &[u8], steps: &[u8]) -> u64
    ensures { result ≡ place_of (expand_plan bound form table.now plan.now (length steps.now)) }
{
    replies::place(judging::expanding::measure(bound, form, table, plan, steps.len()))
}

pub fn ildorzhen_expand_length(
    bound: u64,
    form: u64,
    table: &[u8],
    plan: &[u8],
    steps: &[u8],
) -> u64
    ensures { result ≡ value_of length (expand_plan bound form table.now plan.now (length steps.now)) }
{
    replies::value(judging::expanding::measure(bound, form, table, plan, steps.len()))
}

pub fn ildorzhen_expand_write(
    bound: u64,
    form: u64,
    table: &[u8],
    plan: &[u8],
    steps: &mut [u8],
) -> u64
    ensures value { result ≡ value_of length (expand_plan bound form table.now plan.now (length steps.old)) }
    ensures steps_after { steps.new ≡ written steps.old 0 (expand_plan bound form table.now plan.now (length steps.old)) }
{
    replies::value(judging::expanding::write(bound, form, table, plan, steps))
}
