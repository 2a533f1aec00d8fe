// The text of an operator's template, composed once from its row.
#![tactic(auto)]

ghost use Rattle.std.specs.Prelude.{ℕ, ◌≡◌, ◌∷◌, ◌+◌, ◌*◌, ◌≤◌, length};
ghost use Rattle.std.specs.Int.Count.{ones};
ghost use Rattle.basics.specs.Texts.{digits, ThreeDigits};
ghost use Rattle.rules.specs.Limits.{most_facts, most_subtasks};
ghost use Rattle.rules.specs.Problems.{bottom_next};
ghost use Rattle.facts.specs.Sets.{set_of};
ghost use Rattle.listing.specs.Listings.{list_text, list_bytes};
ghost use Rattle.template.specs.Sizes.{most_numbers, operator_bytes, template_bytes};
ghost use Rattle.template.specs.Templates.{Stands, Keeps, rendered};
ghost use Rattle.drawing.specs.Draws.{Room, Draws, Writes};
ghost use Rattle.stack_lines.specs.StackLines.{Left};
ghost use Rattle.rows.specs.Rows.{row_at};
ghost use Rattle.compose.specs.Groups as Groups;
ghost use Rattle.compose.specs.Groups.{fact_lines, prevail_count, effect_count, prevail_lines, effect_lines};
ghost use Rattle.compose.specs.RowTexts.{row_text, Fit};

use facts::Set;
use listing::Says;
use rows::{Rows, row};
use template::Template;

mod stack;

use stack::Stack;

// The name and the position.
fn put_name(t: &mut Template<'_>, letter: u8, k: u64)
    requires { Room (Groups.name_piece letter k) t.old × ThreeDigits k }
    ensures { Draws (Groups.name_piece letter k) t.old t.new }
{
    drawing::write(t, b"begin_operator\n");
    drawing::field(t, &[letter], k);
    drawing::moving_line(t, b" ", 1);
}

// What it costs, and the end.
fn put_cost(t: &mut Template<'_>, cost: u64)
    requires { Room (Groups.cost_piece cost) t.old }
    ensures { Writes (Groups.cost_piece cost) t.old t.new }
{
    let next = text::put_number(t.text, t.at, cost);
    t.at = text::put(t.text, next, b"\nend_operator\n");
}

// How many lines a group has, and those of its facts.
fn fact_lines(t: &mut Template<'_>, n: u64, says: Says, top: u64, set: Set)
    requires { Room (fact_lines n (list_text says top (set_of set)) (list_bytes says)) t.old × ThreeDigits n × (top ≤ most_facts) }
    ensures { Writes (fact_lines n (list_text says top (set_of set)) (list_bytes says)) t.old t.new }
{
    drawing::field_line(t, b"", n);
    t.at = listing::put_lines(t.text, t.at, says, set, top);
}

// How many lines prevail: those of a set's facts, and those of the stack that stay as they are.
fn prevail_count(set: Set, stack: Stack) -> u64
    ensures value { result ≡ prevail_count (ones (set_of set)) stack.stay stack.task stack.bottom }
    ensures upper_bound { result ≤ most_facts + 2 }
{
    let facts = facts::count(set);
    let top = u64::from(stack.stay == 1);
    let place = u64::from(stack.bottom == stack.task);
    facts + top + place
}

// How many lines change something: the others, and one for each task but the last that is left.
fn effect_count(set: Set, stack: Stack) -> u64
    ensures value { result ≡ effect_count (ones (set_of set)) stack.stay stack.task stack.bottom }
    ensures upper_bound { result ≤ most_facts + 2 + most_subtasks }
{
    let facts = facts::count(set);
    let top = u64::from(stack.stay != 1);
    let place = u64::from(stack.bottom != stack.task);
    let lines = facts + top + place;
    lines + stack.stay.saturating_sub(1)
}

// All lines that prevail.
fn prevails(t: &mut Template<'_>, needs: Set, dels: Set, stack: Stack)
    requires { Room (prevail_lines stack.top needs dels stack.stay stack.task stack.bottom) t.old }
    ensures { Draws (prevail_lines stack.top needs dels stack.stay stack.task stack.bottom) t.old t.new }
{
    let set = facts::kept(needs, dels);
    let n = prevail_count(set, stack);
    fact_lines(t, n, Says::Holds, stack.top, set);
    stack_lines::top_stays(t, stack.top, stack.stay);
    stack_lines::task_stays(t, stack.top, stack.task, stack.bottom);
}

// All lines that change something.
fn effects(t: &mut Template<'_>, needs: Set, adds: Set, dels: Set, stack: Stack)
    requires { Room (effect_lines stack.top needs adds dels stack.stay stack.task stack.bottom) t.old }
    ensures { Draws (effect_lines stack.top needs adds dels stack.stay stack.task stack.bottom) t.old t.new }
{
    let set = facts::altered(needs, adds, dels);
    let n = effect_count(set, stack);
    fact_lines(t, n, Says::Changes(needs, dels), stack.top, set);
    stack_lines::top_moves(t, stack.top, stack.stay);
    stack_lines::task_moves(t, stack.top, stack.task, stack.bottom);
}

// What stands in the place of the task: the last task that is left, or none.
fn bottom_of(free: u64, rows: Rows) -> u64
    requires { ThreeDigits free × Left rows.ops.now rows.cells.now }
    ensures { (result ≡ bottom_next free (row_at rows.entry.ops.now rows.entry.cells.now 0).rest) × ThreeDigits result }
{
    let stay = rows.left(0);
    if stay == 0 {
        return free;
    }
    rows.left_at(0, 0)
}

// The template of the first row, for the operators with this letter and number.
pub fn compose(t: &mut Template<'_>, top: u64, free: u64, letter: u8, k: u64, rows: Rows)
    requires { Fit top free k rows.ops.now rows.cells.now × (template_bytes ≤ length t.old.text.now) × (most_numbers ≤ length t.old.numbers.now) }
    ensures stands { Stands t.new }
    ensures text { (p : ℕ) → rendered t.new p ≡ row_text top free (letter ∷ digits k) (row_at rows.entry.ops.now rows.entry.cells.now 0) p }
    ensures upper_bound { t.new.at + 3 * t.new.count ≤ operator_bytes }
    ensures memory { Keeps t.old t.new }
{
    let needs = rows.needs(0);
    let adds = rows.adds(0);
    let dels = rows.dels(0);
    let cost = rows.cost(0);
    let task = rows.task(0);
    let stay = rows.left(0) as u64;
    let bottom = bottom_of(free, rows);
    let stack = Stack {
        top,
        task,
        stay,
        bottom,
    };
    t.clear();
    put_name(t, letter, k);
    prevails(t, needs, dels, stack);
    effects(t, needs, adds, dels, stack);
    stack_lines::pushes(t, top, rows);
    put_cost(t, cost);
}
