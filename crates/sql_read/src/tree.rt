ghost use Rattle.std.specs.Prelude.{◌≡◌, IfOk, List, ℕ, length, string_bytes};
ghost use Rattle.sql_grammar.specs.Reading.{IsReading, OnlyReading};
ghost use Rattle.sql_grammar.specs.Text.{text as text_of};
ghost use Rattle.sql_grammar.specs.Tokens.{tokens};
ghost use Rattle.sql_grammar.specs.Values.{values_query};
ghost use Rattle.sql_read.specs.Seen.{tree_of};
ghost use Rattle.sql_read_tree.specs.Counts.{capped};
ghost use Rattle.sql_read_tree.specs.View.{query_tree};

use sql_dialect::{Dialect, NoMemory};
use sql_read_tree::{Query, count_query};
use sql_read_writer::push_query;
use std::alloc::Global;

/// The tree that a text is read as: of `SELECT ("a"."x" = $7)` a query that selects one comparison.
///
/// It comes from `read` alone, so its brackets nest no deeper than `MAX_DEPTH`, and each walk over it, its drop among them, ends
/// within the stack.
#[derive(Debug, Drop)]
pub struct Tree {
    pub(crate) query: Box<Query>,
}

impl Tree {
    /// The statement.
    pub fn query(&self) -> &Query
        ensures { query_tree result.now ≡ tree_of self.now }
    {
        &self.query
    }
}

/// The text of a tree in a dialect, with single spaces: `SELECT ("a"."x" = $7)`.
pub fn write(alloc: Global, dialect: Dialect, tree: &Tree) -> Result<String, NoMemory>
    ensures text { IfOk result (λ s. string_bytes s ≡ text_of dialect (tree_of tree.now)) }
    // The tree of a text is written with the text's tokens, so that it is read as the same tree.
    ensures same_tokens { (t : List ℕ) → IsReading dialect t (tree_of tree.now)
        → IfOk result (λ s. tokens dialect (string_bytes s) ≡ tokens dialect t) }
    ensures read_back { (t : List ℕ) → IsReading dialect t (tree_of tree.now)
        → IfOk result (λ s. OnlyReading dialect (string_bytes s) (tree_of tree.now)) }
{
    let mut out = String::new(alloc);
    push_query(alloc, &mut out, dialect, &tree.query)?;
    Ok(out)
}

/// How many placeholders a tree has, or 18446744073709551615 where there are more: 2 in `SELECT ("a"."x" IN (?, ?))`.
pub fn placeholders(tree: &Tree) -> u64
    ensures { result ≡ capped (length (values_query (tree_of tree.now))) }
{
    count_query(0, &tree.query)
}
