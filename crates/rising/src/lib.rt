// How high a method of a table in words rises, in a form, with bounds for its tasks.
#![tactic(auto)]

ghost use Rattle.std.specs.Prelude.{◌≡◌, ◌<◌, ◌≤◌, length};
ghost use Rattle.rules.specs.Tables.{task_count, method_count};
ghost use Rattle.rules.specs.Progression.{prefix};
ghost use Rattle.rules.specs.LeastBounds.{method_bound};
ghost use Rattle.words.specs.Words.{table_of};

use words::Words;

// How many actions method k takes with it. `operators` joins them as it counts, which every round of `least` would pay for.
fn prefix_length(words: Words, form: u64, k: usize) -> usize
    requires { k < method_count (table_of words.all.now) }
    ensures { result ≡ length (prefix form (table_of words.entry.all.now) k) }
{
    if form == 0 {
        return 0;
    }
    let n = words.width_of(k);
    let actions = words.action_count() as usize;
    for count in 0..n {
        let task = words.subtask(k, count);
        if actions <= task {
            return count;
        }
    }
    n
}

// How high those of method k's subtasks rise that stay, each above those after it; at least to the place of its head.
pub fn method_bound(words: Words, form: u64, k: usize, bounds: &[u8]) -> u64
    requires { (k < method_count (table_of words.all.now)) × (task_count (table_of words.all.now) ≤ length bounds.now) }
    ensures { result ≡ method_bound form (table_of words.entry.all.now) bounds.now k }
{
    let n = words.width_of(k);
    let taken = prefix_length(words, form, k);
    let mut best: u64 = 1;
    for j in taken..n {
        let task = words.subtask(k, j);
        let own = bounds[task] as u64;
        let under = (n - 1 - j) as u64;
        best = best.max(own + under);
    }
    best
}
