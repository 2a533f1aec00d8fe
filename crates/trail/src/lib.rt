// What a walk keeps of the operators that it has applied, in turn: what tells its plan, and what leads back to where each was tried.
#![tactic(auto)]

ghost use Rattle.std.specs.Prelude.{◌≡◌};
ghost use Rattle.trail.specs.Trails.{unmarked};

use facts::Set;

// An operator applied: its row and its position, and the facts before it.
#[derive(Clone, Copy)]
pub struct Mark {
    pub row: usize,
    pub position: usize,
    pub facts: Set,
}

// A mark for each operator of the longest walk.
pub const MARKS: usize = rules::limits::MOST_LIMIT as usize;

// What stands where nothing is marked yet.
pub fn unmarked() -> Mark
    ensures { result ≡ unmarked }
{
    Mark {
        row: 0,
        position: 0,
        facts: facts::set_of(0),
    }
}
