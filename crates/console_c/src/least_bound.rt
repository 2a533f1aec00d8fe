// The least bound of a table, for a form.
ghost use Rattle.std.specs.Prelude.{◌≡◌};
ghost use Rattle.basics.specs.Answers.{number_of, place_of, value_of, itself};
ghost use Rattle.rules.specs.Refusals.{find_least};

#[unsafe(no_mangle)]
pub extern "C" fn ildorzhen_least_number(form: u64, table: &[u8]) -> u64
    ensures { result ≡ number_of (find_least form table.now) }
{
    console::least_bound::ildorzhen_least_number(form, table)
}

#[unsafe(no_mangle)]
pub extern "C" fn ildorzhen_least_place(form: u64, table: &[u8]) -> u64
    ensures { result ≡ place_of (find_least form table.now) }
{
    console::least_bound::ildorzhen_least_place(form, table)
}

#[unsafe(no_mangle)]
pub extern "C" fn ildorzhen_least_bound(form: u64, table: &[u8]) -> u64
    ensures { result ≡ value_of itself (find_least form table.now) }
{
    console::least_bound::ildorzhen_least_bound(form, table)
}
