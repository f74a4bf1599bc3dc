//! The line that the program writes for a text that it reads: the text that its tree is written as, or that it has none, as JSON.
//!
//! A text may end in a newline, since a shell's does, and one is taken off. A second one is no space of the grammar, so the text is
//! NotInGrammar. What is not UTF-8 is no text: it makes the whole input BadDocument, and no line tells it.
#![tactic(auto)]

mod input;
mod line;

pub use input::input_text;
pub use line::reading_line;
