// The entries of the C console: numbers and byte slices in, one number out. Each states its outcome for all inputs. `console_c` exports them.
#![tactic(auto)]

pub mod checking;
pub mod expanding;
pub mod least_bound;
pub mod one_section;
pub mod searching;
pub mod sections;
