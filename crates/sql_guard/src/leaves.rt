//! A predicate beside each leaf of a table, in a condition.
#![tactic(auto, using(sql_node::proofs::Trees::opens_source, sql_node::proofs::Trees::opens_join_on, sql_node::proofs::Trees::opens_join, sql_node::proofs::Trees::opens_from_clause, sql_node::proofs::Trees::opens_where_clause, crate::proofs::Predicates::with_sides))]

ghost use Rattle.std.specs.Prelude.{◌≡◌, [], ◌∷◌, IfOk, OnOk, Some, map, option_map};
ghost use Rattle.sql_schema.specs.Equality.{same_table};
ghost use Rattle.sql_node.specs.View.{expr_tree, from_clause_tree, join_on_tree, maybe_of, source_tree, where_clause_tree};
ghost use Rattle.sql_origin.specs.Origins.{a_table, an_alias};
ghost use Rattle.sql_guard_law.specs.Restricted.{if_same, predicate_of, predicates, predicates_from, restricted_on, with_all};

use sql_leaf::{Alias, JoinKind};
use sql_node::{Expr, FromClause, JoinOn, Source, WhereClause};
use sql_origin::Origin;
use sql_schema::{NoMemory, Table};
use sql_source::AliasFields;
use std::alloc::Global;

/// A predicate on the rows of one table.
#[derive(Clone, Copy)]
pub(crate) struct Guard<'a> {
    pub alloc: Global,
    pub table: &'a Table,
    pub predicate: &'a Expr,
}

pub(crate) fn is_one_table(one: &Table, other: &Table) -> bool
    ensures { result ≡ same_table one.now other.now }
{
    Origin::of_table(one).is_same(Origin::of_table(other))
}

/// The condition AND the predicate, which stands alone where there is no condition.
fn with(alloc: Global, condition: Option<Expr>, predicate: Expr) -> Result<Expr, NoMemory>
    ensures { IfOk result (λ e. maybe_of (option_map expr_tree (Some e))
        ≡ with_all (expr_tree predicate ∷ []) (maybe_of (option_map expr_tree condition))) }
{
    match condition {
        None => Ok(predicate),
        Some(condition) => {
            let left = Box::new(alloc, condition)?;
            let right = Box::new(alloc, predicate)?;
            Ok(Expr::And(left, right))
        }
    }
}

fn clause_of(condition: Option<Expr>) -> WhereClause
    ensures { where_clause_tree result ≡ maybe_of (option_map expr_tree condition) }
{
    match condition {
        None => WhereClause::NoWhereClause,
        Some(condition) => WhereClause::WhereClause(condition),
    }
}

impl Guard<'_> {
    /// Puts the predicate beside the condition, if the table is that of the predicate.
    // (not inlined, as `with_alias`: joins nest deep, and what stands here takes no stack in the levels above)
    #[inline(never)]
    fn with_table(self, table: &Table, condition: &mut Option<Expr>) -> Result<(), NoMemory>
        ensures { OnOk result (maybe_of (option_map expr_tree condition.new)
            ≡ with_all (map (predicate_of (expr_tree self.entry.predicate.now))
            (if_same self.entry.table.now table.now (a_table table.now)))
            (maybe_of (option_map expr_tree condition.old))) }
    {
        if is_one_table(self.table, table) {
            let predicate = self.predicate.try_clone(self.alloc)?;
            *condition = Some(with(self.alloc, condition.take(), predicate)?);
        }
        Ok(())
    }

    /// Puts the predicate on the alias's fields beside the condition, if its table is that of the predicate.
    #[inline(never)]
    fn with_alias(self, alias: &Alias, condition: &mut Option<Expr>) -> Result<(), NoMemory>
        ensures { OnOk result (maybe_of (option_map expr_tree condition.new)
            ≡ with_all (map (predicate_of (expr_tree self.entry.predicate.now))
            (if_same self.entry.table.now alias.now.table (an_alias alias.now.name alias.now.table)))
            (maybe_of (option_map expr_tree condition.old))) }
    {
        if is_one_table(self.table, &alias.table) {
            let predicate = self.predicate.try_clone(self.alloc)?;
            let predicate = alias.fields(self.alloc, predicate)?;
            *condition = Some(with(self.alloc, condition.take(), predicate)?);
        }
        Ok(())
    }

    /// Puts the predicate of each leaf that lies in no right side of a left outer join beside the condition.
    #[cycle(with)]
    fn with_leaves(self, source: &Source, condition: &mut Option<Expr>) -> Result<(), NoMemory>
        ensures { OnOk result (maybe_of (option_map expr_tree condition.new)
            ≡ with_all (predicates self.entry.table.now (expr_tree self.entry.predicate.now)
            (source_tree source.now)) (maybe_of (option_map expr_tree condition.old))) }
    {
        match source {
            Source::Table(source) => self.with_table(&source.table, condition),
            Source::Alias(alias) => self.with_alias(alias, condition),
            Source::Join(join) => self.with_sides(join, condition),
        }
    }

    #[cycle(with)]
    fn with_sides(self, join: &JoinOn, condition: &mut Option<Expr>) -> Result<(), NoMemory>
        ensures { OnOk result (maybe_of (option_map expr_tree condition.new)
            ≡ with_all (predicates self.entry.table.now (expr_tree self.entry.predicate.now)
            (join_on_tree join.now)) (maybe_of (option_map expr_tree condition.old))) }
    {
        self.with_leaves(&join.join.left, condition)?;
        match join.join.kind {
            JoinKind::Inner => self.with_leaves(&join.join.right, condition),
            JoinKind::LeftOuter => Ok(()),
        }
    }

    /// The condition of a join and the predicates of the leaves that it may leave out.
    pub(crate) fn with_left_out(
        self,
        join: &JoinOn,
        on: Option<Expr>,
    ) -> Result<Option<Expr>, NoMemory>
        ensures { IfOk result (λ c. maybe_of (option_map expr_tree c)
            ≡ restricted_on self.entry.table.now (expr_tree self.entry.predicate.now)
            join.now.join.kind (source_tree join.now.join.right)
            (maybe_of (option_map expr_tree on))) }
    {
        let mut on = on;
        match join.join.kind {
            JoinKind::Inner => Ok(on),
            JoinKind::LeftOuter => {
                self.with_leaves(&join.join.right, &mut on)?;
                Ok(on)
            }
        }
    }

    /// The condition of a statement and the predicates of all other leaves of its source.
    #[inline(never)]
    pub(crate) fn with_source(
        self,
        from: &FromClause,
        condition: Option<Expr>,
    ) -> Result<WhereClause, NoMemory>
        ensures { IfOk result (λ w. where_clause_tree w
            ≡ with_all (predicates_from self.entry.table.now (expr_tree self.entry.predicate.now)
            (from_clause_tree from.now)) (maybe_of (option_map expr_tree condition))) }
    {
        let mut condition = condition;
        match from {
            FromClause::NoFromClause => Ok(clause_of(condition)),
            FromClause::FromClause(source) => {
                self.with_leaves(source, &mut condition)?;
                Ok(clause_of(condition))
            }
        }
    }
}
