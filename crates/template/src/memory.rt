// A template as it is drawn, in memory that is lent: its text, and the numbers that move in it.
ghost use Rattle.std.specs.Prelude.{◌≤◌, length};

use crate::numbers::Number;

// The next byte stands at `at`, the open segment begins at `from`, and `count` numbers stand before it.
#[derive(Drop)]
pub struct Template<'a> {
    pub text: &'a mut [u8],
    pub numbers: &'a mut [Number],
    pub at: usize,
    pub from: usize,
    pub count: usize,
    pub ghost reach: { from ≤ at },
    pub ghost fits: { at ≤ length text.now },
    pub ghost few: { count ≤ length numbers.now },
}
