// Count the sections of a problem.
ghost use Rattle.std.specs.Prelude.{◌≡◌};
ghost use Rattle.basics.specs.Answers.{number_of, place_of, value_of, itself};
ghost use Rattle.rules.specs.Refusals.{count_sections};

#[unsafe(no_mangle)]
pub extern "C" fn ildorzhen_sections_number(bound: u64, form: u64, table: &[u8]) -> u64
    ensures { result ≡ number_of (count_sections bound form table.now) }
{
    console::sections::ildorzhen_sections_number(bound, form, table)
}

#[unsafe(no_mangle)]
pub extern "C" fn ildorzhen_sections_place(bound: u64, form: u64, table: &[u8]) -> u64
    ensures { result ≡ place_of (count_sections bound form table.now) }
{
    console::sections::ildorzhen_sections_place(bound, form, table)
}

#[unsafe(no_mangle)]
pub extern "C" fn ildorzhen_sections_count(bound: u64, form: u64, table: &[u8]) -> u64
    ensures { result ≡ value_of itself (count_sections bound form table.now) }
{
    console::sections::ildorzhen_sections_count(bound, form, table)
}
