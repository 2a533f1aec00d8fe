// A view of what is drawn of a template: whoever has its text and its numbers to read can render it.
ghost use Rattle.std.specs.Prelude.{◌≡◌, ℕ, ◌+◌, ◌*◌, ◌≤◌, ◌<◌, length};
ghost use Rattle.basics.specs.Lists.{upto};
ghost use Rattle.rules.specs.Limits.{most_bound};
ghost use Rattle.text.specs.Appends.{Appends};
ghost use Rattle.text.specs.Puts.{Puts, farthest};
ghost use Rattle.template.specs.Sizes.{margin, most_offset, figure_count, operator_bytes};
ghost use Rattle.template.specs.Figures.{Figures};
ghost use Rattle.template.specs.Segments.{number_at, start_of};

use crate::numbers::Number;
use crate::{put_figure, put_part};

// As in a template; the open segment begins after the last number, and each number is low enough to have a figure.
#[derive(Clone, Copy)]
pub struct Drawn<'a> {
    pub text: &'a [u8],
    pub numbers: &'a [Number],
    pub at: usize,
    pub from: usize,
    pub count: usize,
    pub ghost begins: { from ≡ start_of numbers.now count },
    pub ghost reach: { from ≤ at },
    pub ghost fits: { at ≤ length text.now },
    pub ghost few: { count ≤ length numbers.now },
    pub ghost low: { (j : ℕ) → j < count → (number_at numbers.now j).offset ≤ most_offset },
}

impl<'a> Drawn<'a> {
    ghost use Rattle.template.specs.Views.{shown};

    // The text at the position p, byte by byte: nothing after it changes.
    pub fn put_exactly(self, out: &mut [u8], at: usize, p: usize) -> usize
        requires { (p < most_bound) × (at + self.at + 3 * self.count ≤ farthest) }
        ensures { Puts out.old at (shown self.entry p) out.new result }
    {
        let mut next = at;
        let mut from = 0;
        for j in 0..self.count {
            let number = self.numbers[j];
            let end = from + number.bytes;
            let v = (p + number.offset) as u64;
            next = text::put_field(out, next, &self.text[from..end], v);
            from = end;
        }
        let end = self.at;
        text::put(out, next, &self.text[from..end])
    }

    // The text at the position p.
    fn put_rendered(self, out: &mut [u8], at: usize, figures: &[u8], p: usize) -> usize
        requires room { (self.at + margin ≤ length self.text.now) × (p < most_bound) × Figures figures.now figure_count }
        requires margin_in_bounds { at + self.at + 3 * self.count + margin ≤ length out.old }
        ensures appends { Appends out.old at (shown self.entry p) out.new result }
        ensures upper_bound { result ≤ at + self.entry.at + 3 * self.entry.count }
    {
        let mut next = at;
        let mut from = 0;
        for j in 0..self.count {
            let n = self.numbers[j].bytes;
            let end = put_part(out, next, self.text, from, n);
            let v = p + self.numbers[j].offset;
            next = put_figure(out, end, figures, v);
            from += n;
        }
        put_part(out, next, self.text, from, self.at - from)
    }

    // The text at the positions 0, 1, .. n - 1, one after the other.
    pub fn put_positions(self, out: &mut [u8], at: usize, figures: &[u8], n: usize) -> usize
        requires room { (self.at + margin ≤ length self.text.now) × Figures figures.now figure_count }
        requires count_bound { (self.at + 3 * self.count ≤ operator_bytes) × (n ≤ most_bound) × (at + operator_bytes * n + margin ≤ length out.old) }
        ensures appends { Appends out.old at (upto (shown self.entry) n) out.new result }
        ensures upper_bound { result ≤ at + operator_bytes * n }
    {
        let mut next = at;
        for p in 0..n {
            next = self.put_rendered(out, next, figures, p);
        }
        next
    }
}
