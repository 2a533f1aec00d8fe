// What an operator does to the stack: `stay` tasks are left of `task`, the last of them, or none, in its place; the top has the
// variable `top`, and the places above it have the next ones.
ghost use Rattle.std.specs.Prelude.{◌≤◌};
ghost use Rattle.basics.specs.Texts.{ThreeDigits};
ghost use Rattle.rules.specs.Limits.{most_facts, most_subtasks};

#[derive(Clone, Copy)]
pub struct Stack {
    pub top: u64,
    pub task: u64,
    pub stay: u64,
    pub bottom: u64,
    pub ghost top_low: { top ≤ most_facts },
    pub ghost task_low: { ThreeDigits task },
    pub ghost stay_low: { stay ≤ most_subtasks },
    pub ghost bottom_low: { ThreeDigits bottom },
}
