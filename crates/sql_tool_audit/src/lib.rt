//! The line that the program writes for a text that it audits: its report as JSON, or the name of its refusal.
#![tactic(auto)]

mod line;
mod report;

pub use line::audit_line;
