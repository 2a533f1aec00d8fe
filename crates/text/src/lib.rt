// Bytes, decimal numbers and lines, each written at a place in text that is lent; the place after it is handed back. Where the text
// ends before that place, it is only counted: lent no text at all, a writer measures.
#![tactic(auto)]

ghost use Rattle.std.specs.Prelude.{◌≡◌, [], ◌∷◌, ◌++◌, ◌+◌, ◌%◌, ◌≤◌, ◌<◌, length};
ghost use Rattle.std.proofs.lemmas.List.Edits.{sets};
ghost use Rattle.basics.specs.Texts.{digits, ThreeDigits};
ghost use Rattle.text.specs.Puts.{Puts, farthest};

// Bytes that are known to fit; nothing else changes. Of a loop over a text that is known where it is put only the stores are left;
// `copy_from_slice` compares addresses each time.
pub fn copy(out: &mut [u8], at: usize, s: &[u8])
    requires { at + length s.now ≤ length out.old }
    ensures { (out.new ≡ sets out.old at s.now) × (length out.new ≡ length out.old) }
{
    for i in 0..s.len() {
        out[at + i] = s[i];
    }
}

pub fn put(out: &mut [u8], at: usize, s: &[u8]) -> usize
    requires { at + length s.now ≤ farthest }
    ensures { Puts out.old at s.now out.new result }
{
    let next = at + s.len();
    if out.len() < next {
        return next;
    }
    copy(out, at, s);
    next
}

// `put` of one byte, in fewer instructions.
fn put_byte(out: &mut [u8], at: usize, b: u8) -> usize
    requires { at + 1 ≤ farthest }
    ensures { Puts out.old at (b ∷ []) out.new result }
{
    let next = at + 1;
    if out.len() < next {
        return next;
    }
    out[at] = b;
    next
}

// The last digit of n.
fn last_digit(n: u64) -> u8
    ensures { result ≡ 48 + n % 10 }
{
    b'0' + (n % 10) as u8
}

// n in decimal.
fn put_digits(out: &mut [u8], at: usize, n: u64) -> usize
    requires { at + length (digits n) ≤ farthest }
    ensures { Puts out.old at (digits n) out.new result }
{
    if n < 10 {
        return put_byte(out, at, last_digit(n));
    }
    let next = put_digits(out, at, n / 10);
    put_byte(out, next, last_digit(n))
}

// The same for two digits at most, and for three: nearly all numbers are such, and these call nothing that calls itself.
fn put_two(out: &mut [u8], at: usize, n: u64) -> usize
    requires { (at + 2 ≤ farthest) × (n < 100) }
    ensures puts { Puts out.old at (digits n) out.new result }
    ensures upper_bound { result ≤ at + 2 }
{
    if n < 10 {
        return put_byte(out, at, last_digit(n));
    }
    let second = put_byte(out, at, last_digit(n / 10));
    put_byte(out, second, last_digit(n))
}

fn put_three(out: &mut [u8], at: usize, n: u64) -> usize
    requires { (at + 3 ≤ farthest) × ThreeDigits n }
    ensures puts { Puts out.old at (digits n) out.new result }
    ensures upper_bound { result ≤ at + 3 }
{
    if n < 100 {
        return put_two(out, at, n);
    }
    let third = put_two(out, at, n / 10);
    put_byte(out, third, last_digit(n))
}

// Any number: 20 digits at most.
pub fn put_number(out: &mut [u8], at: usize, n: u64) -> usize
    requires { at + 20 ≤ farthest }
    ensures puts { Puts out.old at (digits n) out.new result }
    ensures upper_bound { result ≤ at + 20 }
{
    put_digits(out, at, n)
}

// Text, and a number of at most three digits after it.
pub fn put_field(out: &mut [u8], at: usize, s: &[u8], n: u64) -> usize
    requires { (at + length s.now + 3 ≤ farthest) × ThreeDigits n }
    ensures puts { Puts out.old at (s.now ++ digits n) out.new result }
    ensures upper_bound { result ≤ at + length s.now + 3 }
{
    let next = put(out, at, s);
    put_three(out, next, n)
}
