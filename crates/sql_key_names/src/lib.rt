//! Keys of statements over one schema, which are compared by the names of their tables and columns and never by what is declared of them:
//! in a schema a name is one declaration.
#![tactic(auto)]

mod compared;
mod key;

pub use key::NamedKey;
