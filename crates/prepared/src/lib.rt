// An image that is laid out, and its rules, as values that are read: what holds of the words that they stand in is said by their types.
#![tactic(auto)]

mod rule;
mod tape;

pub use rule::RuleWords;
pub use tape::Prepared;
