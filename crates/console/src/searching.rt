// Search for a plan.
ghost use Rattle.std.specs.Prelude.{◌≡◌, length};
ghost use Rattle.basics.specs.Answers.{number_of, place_of, value_of};
ghost use Rattle.rules.specs.Refusals.{applied_in, plan_bytes, search_plan, text_found, written};

pub fn ildorzhen_search_number(
    bound: u64,
    form: u64,
    limit: u64,
    budget: u64,
    table: &[u8],
    text: &[u8],
) -> u64
    ensures { result ≡ number_of (search_plan bound form limit budget table.now (length text.now)) }
{
    replies::number(seeking::measure(bound, form, limit, budget, table, text.len()))
}

pub fn ildorzhen_search_place(
    bound: u64,
    form: u64,
    limit: u64,
    budget: u64,
    table: &[u8],
    text: &[u8],
) -> u64
    ensures { result ≡ place_of (search_plan bound form limit budget table.now (length text.now)) }
{
    replies::place(seeking::measure(bound, form, limit, budget, table, text.len()))
}

pub fn ildorzhen_search_applied(
    bound: u64,
    form: u64,
    limit: u64,
    budget: u64,
    table: &[u8],
    text: &[u8],
) -> u64
    ensures { result ≡ value_of applied_in (search_plan bound form limit budget table.now (length text.now)) }
{
    replies::applied(seeking::measure(bound, form, limit, budget, table, text.len()))
}

pub fn ildorzhen_search_length(
    bound: u64,
    form: u64,
    limit: u64,
    budget: u64,
    table: &[u8],
    text: &[u8],
) -> u64
    ensures { result ≡ value_of plan_bytes (search_plan bound form limit budget table.now (length text.now)) }
{
    replies::bytes(seeking::measure(bound, form, limit, budget, table, text.len()))
}

pub fn ildorzhen_search_write(
    bound: u64,
    form: u64,
    limit: u64,
    budget: u64,
    table: &[u8],
    text: &mut [u8],
) -> u64
    ensures value { result ≡ value_of plan_bytes (search_plan bound form limit budget table.now (length text.old)) }
    ensures text_after { text.new ≡ written text.old 0 (text_found (search_plan bound form limit budget table.now (length text.old))) }
{
    replies::bytes(seeking::write(bound, form, limit, budget, table, text))
}
