// Text that is composed once and rendered at each position. Writers here move a chunk of bytes at a time, so they may also
// change as many bytes after what they write; `Drawn::put_exactly` alone changes none.
#![tactic(auto)]

ghost use Rattle.std.specs.Prelude.{◌≡◌, [], ◌∷◌, ◌++◌, ℕ, ◌+◌, ◌*◌, ◌-◌, ◌≤◌, ◌<◌, length, take, drop};
ghost use Rattle.basics.specs.Texts.{digits, ThreeDigits};
ghost use Rattle.text.specs.Appends.{Appends};
ghost use Rattle.template.specs.Sizes.{chunk, most_offset, figure_count, figure_bytes};
ghost use Rattle.template.specs.Figures.{Figures, figure};
ghost use Rattle.template.specs.Templates.{Blank, Stands, Keeps, rendered};
ghost use Rattle.template.specs.Views.{shown};

use rules::limits::MOST_BOUND;

mod memory;
mod numbers;
mod view;

pub use memory::Template;
pub use numbers::{NO_NUMBER, Number};
pub use view::Drawn;

// Sizes, with the names that specs/Sizes has for them; and how far a move goes before the next one, which overlaps it.
pub const CHUNK: usize = 32;

const STRIDE: usize = 30;

pub const MARGIN: usize = 2 * CHUNK;

pub const MOST_OFFSET: usize = 448;

pub const FIGURE_COUNT: usize = MOST_OFFSET + MOST_BOUND as usize;

pub const FIGURE_BYTES: usize = 4 * FIGURE_COUNT;

pub const MOST_NUMBERS: usize = 12;

pub const OPERATOR_BYTES: usize = 1408;

pub const TEMPLATE_BYTES: usize = OPERATOR_BYTES + MARGIN;

pub const STEP_TEXT_BYTES: usize = OPERATOR_BYTES * MOST_BOUND as usize;

// A chunk of s from `from` on; by way of an array of known size they become wide moves.
fn put_chunk(out: &mut [u8], at: usize, s: &[u8], from: usize)
    requires { (at + chunk ≤ length out.old) × (from + chunk ≤ length s.now) }
    ensures { Appends out.old at (take chunk (drop from s.now)) out.new (at + chunk) }
{
    let end = from + CHUNK;
    let mut chunk = [0u8; CHUNK];
    text::copy(&mut chunk, 0, &s[from..end]);
    text::copy(out, at, &chunk);
}

// The n bytes of s from `from` on. Most parts are short, so the first chunk is put untested. Chunks that do not overlap would
// become a call of memcpy, which costs more.
fn put_part(out: &mut [u8], at: usize, s: &[u8], from: usize, n: usize) -> usize
    requires { (at + n + chunk ≤ length out.old) × (from + n + chunk ≤ length s.now) }
    ensures appends { Appends out.old at (take n (drop from s.now)) out.new result }
    ensures value { result ≡ at + n }
{
    put_chunk(out, at, s, from);
    let mut k = STRIDE;
    while k < n {
        put_chunk(out, at + k, s, from + k);
        k += STRIDE;
    }
    at + n
}

fn put_four(out: &mut [u8], at: usize, a: u8, b: u8, c: u8, d: u8) -> usize
    requires { at + 4 ≤ length out.old }
    ensures appends { Appends out.old at (a ∷ b ∷ c ∷ d ∷ []) out.new result }
    ensures value { result ≡ at + 4 }
{
    out[at] = a;
    let second = at + 1;
    out[second] = b;
    let third = at + 2;
    out[third] = c;
    let fourth = at + 3;
    out[fourth] = d;
    at + 4
}

// n in decimal, all four bytes of its figure; the fourth says how many of them count.
fn put_figure(out: &mut [u8], at: usize, figures: &[u8], n: usize) -> usize
    requires { (at + 4 ≤ length out.old) × (n < figure_count) × Figures figures.now figure_count }
    ensures appends { Appends out.old at (digits n) out.new result }
    ensures upper_bound { result ≤ at + 3 }
{
    let k = n * 4;
    let size = figures[k + 3];
    put_four(out, at, figures[k], figures[k + 1], figures[k + 2], size);
    at + size as usize
}

fn ascii(n: usize) -> u8
    requires { n < 10 }
    ensures { result ≡ 48 + n }
{
    b'0' + n as u8
}

fn fill_figure(figures: &mut [u8], at: usize, n: usize) -> usize
    requires { (at + 4 ≤ length figures.old) × ThreeDigits n }
    ensures appends { Appends figures.old at (figure n) figures.new result }
    ensures value { result ≡ at + 4 }
{
    if n < 10 {
        return put_four(figures, at, ascii(n), 0, 0, 1);
    }
    if n < 100 {
        return put_four(figures, at, ascii(n / 10), ascii(n % 10), 0, 2);
    }
    let hundreds = ascii(n / 100);
    let tens = ascii(n / 10 % 10);
    put_four(figures, at, hundreds, tens, ascii(n % 10), 3)
}

pub fn fill_figures(figures: &mut [u8])
    requires { figure_bytes ≤ length figures.old }
    ensures { Figures figures.new figure_count }
{
    let mut at = 0;
    for n in 0..FIGURE_COUNT {
        at = fill_figure(figures, at, n);
    }
}

impl<'a> Template<'a> {
    // Nothing is drawn yet, in memory that is lent for it.
    pub fn over(text: &'a mut [u8], numbers: &'a mut [Number]) -> Template<'a>
        ensures blank { Blank result }
        ensures text { (result.text.ghost_name ≡ text.entry.ghost_name) × (result.text.now ≡ text.old) }
        ensures numbers { (result.numbers.ghost_name ≡ numbers.entry.ghost_name) × (result.numbers.now ≡ numbers.old) }
    {
        Template {
            at: 0,
            from: 0,
            count: 0,
            text,
            numbers,
        }
    }

    // Begins anew, whatever was drawn.
    pub fn clear(&mut self)
        ensures blank { Blank self.new }
        ensures memory { Keeps self.old self.new × (self.new.text.now ≡ self.old.text.now) × (self.new.numbers.now ≡ self.old.numbers.now) }
    {
        self.at = 0;
        self.from = 0;
        self.count = 0;
    }

    // The segment ends here, and the position plus o stands after it.
    pub fn number(&mut self, o: usize)
        requires { (self.old.count < length self.old.numbers.now) × (o ≤ most_offset) }
        ensures stands { Stands self.old → Stands self.new }
        ensures text { Stands self.old → (p : ℕ) → rendered self.new p ≡ rendered self.old p ++ digits (p + o) }
        ensures at_value { (self.new.at ≡ self.old.at) × (self.new.from ≡ self.old.at) × (self.new.count ≡ self.old.count + 1) }
        ensures memory { Keeps self.old self.new × (self.new.text.now ≡ self.old.text.now) }
    {
        let j = self.count;
        self.numbers[j] = Number {
            bytes: self.at - self.from,
            offset: o,
        };
        self.from = self.at;
        self.count = j + 1;
    }

    // What is drawn, to be rendered.
    pub fn drawn(&self) -> Drawn<'_>
        requires { Stands self.now }
        ensures text { (p : ℕ) → shown result p ≡ rendered self.now p }
        ensures lent { (result.text.now ≡ self.now.text.now) × (result.numbers.now ≡ self.now.numbers.now) }
        ensures places { (result.at ≡ self.now.at) × (result.from ≡ self.now.from) × (result.count ≡ self.now.count) }
    {
        Drawn {
            text: self.text,
            numbers: self.numbers,
            at: self.at,
            from: self.from,
            count: self.count,
        }
    }
}
