// A template's text as it is composed: each writer adds a piece to what is drawn.
#![tactic(auto)]

ghost use Rattle.std.specs.Prelude.{◌≤◌};
ghost use Rattle.basics.specs.Texts.{ThreeDigits};
ghost use Rattle.template.specs.Sizes.{most_offset};
ghost use Rattle.drawing.specs.Pieces as Pieces;
ghost use Rattle.drawing.specs.Draws.{Room, Draws, Writes};

use template::Template;

// Text in which no number moves.
pub fn write(t: &mut Template<'_>, s: &[u8])
    requires { Room (Pieces.plain s.now) t.old }
    ensures { Writes (Pieces.plain s.now) t.old t.new }
{
    t.at = text::put(t.text, t.at, s);
}

// Text, and a number of at most three digits that does not move.
pub fn field(t: &mut Template<'_>, s: &[u8], n: u64)
    requires { Room (Pieces.field s.now n) t.old × ThreeDigits n }
    ensures { Writes (Pieces.field s.now n) t.old t.new }
{
    t.at = text::put_field(t.text, t.at, s, n);
}

// Text, and the position plus o.
pub fn moving(t: &mut Template<'_>, s: &[u8], o: usize)
    requires { Room (Pieces.moving s.now o) t.old × (o ≤ most_offset) }
    ensures { Draws (Pieces.moving s.now o) t.old t.new }
{
    write(t, s);
    t.number(o);
}

// The same two with a line feed after them.
pub fn field_line(t: &mut Template<'_>, s: &[u8], n: u64)
    requires { Room (Pieces.field_line s.now n) t.old × ThreeDigits n }
    ensures { Writes (Pieces.field_line s.now n) t.old t.new }
{
    field(t, s, n);
    write(t, b"\n");
}

pub fn moving_line(t: &mut Template<'_>, s: &[u8], o: usize)
    requires { Room (Pieces.moving_line s.now o) t.old × (o ≤ most_offset) }
    ensures { Draws (Pieces.moving_line s.now o) t.old t.new }
{
    moving(t, s, o);
    write(t, b"\n");
}
