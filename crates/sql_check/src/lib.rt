//! Compiles statements: text, values, types, flag and key of a statement that breaks no rule, or the first rule that it breaks;
//! the same but for the types of a flat statement, in one loop; and whether a statement's values fit their types.
//!
//! Whether values fit is asked apart from the rules (`values_fit`), and takes no memory. A value that does not fit breaks TypeMismatch, so
//! statements of one shape need not break the same rules. Where the values of both fit, they do.
#![tactic(auto)]

mod answer;
mod boxing;
mod breaking;
mod built;
mod error;
mod fitting;

pub use answer::{FusedAnswer, fused};
pub use boxing::boxing_takes_the_id_alone;
pub use breaking::broken;
pub use built::{Built, compile, compile_by, compile_flat_by};
pub use error::CompileError;
pub use fitting::values_fit;
pub use sql_flat_text::Steps;
pub use sql_rules::{RULES, Rule};
pub use sql_rules_check::Names;
