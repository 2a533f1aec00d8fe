// One section of a problem, measured, or written into the caller's text from a place on.
ghost use Rattle.std.specs.Prelude.{◌≡◌, length};
ghost use Rattle.basics.specs.Answers.{number_of, place_of, value_of};
ghost use Rattle.rules.specs.Refusals.{one_section, written};

pub fn ildorzhen_section_number(
    bound: u64,
    form: u64,
    table: &[u8],
    index: u64,
    text: &[u8],
    at: u64,
) -> u64
    ensures { result ≡ number_of (one_section bound form table.now index (length text.now) at) }
{
    replies::number(placing::measure(bound, form, table, index, text.len(), at))
}

pub fn ildorzhen_section_place(
    bound: u64,
    form: u64,
    table: &[u8],
    index: u64,
    text: &[u8],
    at: u64,
) -> u64
    ensures { result ≡ place_of (one_section bound form table.now index (length text.now) at) }
{
    replies::place(placing::measure(bound, form, table, index, text.len(), at))
}

pub fn ildorzhen_section_length(
    bound: u64,
    form: u64,
    table: &[u8],
    index: u64,
    text: &[u8],
    at: u64,
) -> u64
    ensures { result ≡ value_of length (one_section bound form table.now index (length text.now) at) }
{
    replies::value(placing::measure(bound, form, table, index, text.len(), at))
}

pub fn ildorzhen_section_write(
    bound: u64,
    form: u64,
    table: &[u8],
    index: u64,
    text: &mut [u8],
    at: u64,
) -> u64
    ensures value { result ≡ value_of length (one_section bound form table.now index (length text.old) at) }
    ensures text_after { text.new ≡ written text.old at (one_section bound form table.now index (length text.old) at) }
{
    replies::value(placing::write(bound, form, table, index, text, at))
}
