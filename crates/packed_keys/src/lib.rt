//! Simplices in four words, as the keys of tables: three labels a word.
#![tactic(auto)]

mod key;

pub use key::Key;
