//! The facade as its users see it: callers of each function that `hardieflax` exports, with contracts in the words that it passes on.
//!
//! No code here names another library, so what users need is there. `tests/facade.py` checks that, and that no function and no trait is
//! left out. What the calls give is tested in the crates of the libraries.
#![tactic(auto)]

pub mod compiled;
pub mod expressions;
pub mod laws;
pub mod parts;
pub mod programs;
pub mod sources;
pub mod statements;
pub mod texts;
