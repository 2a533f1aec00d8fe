// Check a plan.
ghost use Rattle.std.specs.Prelude.{◌≡◌};
ghost use Rattle.basics.specs.Answers.{number_of, place_of, value_of};
ghost use Rattle.rules.specs.Checks.{cost_of, operators_in, steps_in};
ghost use Rattle.rules.specs.Refusals.{check_plan};

pub fn ildorzhen_check_number(bound: u64, form: u64, table: &[u8], plan: &[u8]) -> u64
    ensures { result ≡ number_of (check_plan bound form table.now plan.now) }
{
    replies::number(judging::verdict(bound, form, table, plan))
}

pub fn ildorzhen_check_place(bound: u64, form: u64, table: &[u8], plan: &[u8]) -> u64
    ensures { result ≡ place_of (check_plan bound form table.now plan.now) }
{
    replies::place(judging::verdict(bound, form, table, plan))
}

pub fn ildorzhen_check_cost(bound: u64, form: u64, table: &[u8], plan: &[u8]) -> u64
    ensures { result ≡ value_of cost_of (check_plan bound form table.now plan.now) }
{
    replies::cost(judging::verdict(bound, form, table, plan))
}

pub fn ildorzhen_check_operators(bound: u64, form: u64, table: &[u8], plan: &[u8]) -> u64
    ensures { result ≡ value_of operators_in (check_plan bound form table.now plan.now) }
{
    replies::operators(judging::verdict(bound, form, table, plan))
}

pub fn ildorzhen_check_steps(bound: u64, form: u64, table: &[u8], plan: &[u8]) -> u64
    ensures { result ≡ value_of steps_in (check_plan bound form table.now plan.now) }
{
    replies::steps(judging::verdict(bound, form, table, plan))
}
