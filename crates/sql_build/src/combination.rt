//! Statements combined.

ghost use Rattle.std.specs.Prelude.{◌≡◌, IfOk};
ghost use Rattle.sql_node.specs.View.{combination_clause_tree, statement_tree};
ghost use Rattle.sql_select.specs.Changes.{combined};

use sql_dialect::{Combinator, DuplicateRule};
use sql_expr::{CombinationClause, Statement};
use sql_schema::NoMemory;
use sql_select::{CombineDsl, Query as _};
use std::alloc::Global;

fn combine<Q: CombineDsl>(
    alloc: Global,
    combinator: Combinator,
    rule: DuplicateRule,
    left: Q,
    right: Statement,
) -> Result<CombinationClause, NoMemory>
    ensures { IfOk result (λ c. combination_clause_tree c
        ≡ combined combinator rule (Q.statement left) (statement_tree right)) }
{
    match (combinator, rule) {
        (Combinator::Union, DuplicateRule::Distinct) => left.union(alloc, right),
        (Combinator::Union, DuplicateRule::All) => left.union_all(alloc, right),
        (Combinator::Intersect, DuplicateRule::Distinct) => left.intersect(alloc, right),
        (Combinator::Intersect, DuplicateRule::All) => left.intersect_all(alloc, right),
        (Combinator::Except, DuplicateRule::Distinct) => left.except(alloc, right),
        (Combinator::Except, DuplicateRule::All) => left.except_all(alloc, right),
    }
}

/// `(SELECT ..) UNION (SELECT ..)`.
pub(crate) fn combined_with<Q: CombineDsl>(
    alloc: Global,
    combinator: Combinator,
    rule: DuplicateRule,
    left: Q,
    right: Statement,
) -> Result<Statement, NoMemory>
    ensures { IfOk result (λ s. statement_tree s
        ≡ combined combinator rule (Q.statement left) (statement_tree right)) }
{
    let combination = combine(alloc, combinator, rule, left, right)?;
    Ok(combination.into_statement())
}
