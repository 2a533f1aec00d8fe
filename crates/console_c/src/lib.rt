// The entries of `console` as C calls them: each calls the function of its name and states its clauses again. C has their declarations in
// include/ildorzhen.h.
#![tactic(auto)]

mod checking;
mod expanding;
mod least_bound;
mod one_section;
mod searching;
mod sections;
