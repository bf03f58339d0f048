// The table of rules: what stands, what it has marked, and what each call does to it.
#![tactic(auto)]

mod asked;
mod playbook;
mod rule;
mod rules;
mod types;

pub use types::Table;
