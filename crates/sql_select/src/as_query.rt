#![tactic(auto, using(sql_node::proofs::Trees::opens_source, sql_node::proofs::Trees::opens_select_clause, sql_node::proofs::Trees::opens_from_clause, sql_node::proofs::Trees::opens_distinct_clause, sql_node::proofs::Trees::opens_where_clause, sql_node::proofs::Trees::opens_order_clause, sql_node::proofs::Trees::opens_group_by_clause, sql_node::proofs::Trees::opens_having_clause, sql_node::proofs::Trees::opens_select_statement))]

ghost use Rattle.std.specs.Prelude.{◌≡◌, false, IfOk, None};
ghost use Rattle.sql_node.specs.Tree as tree;
ghost use Rattle.sql_node.specs.View.{expr_tree, from_clause_tree, select_clause_tree, select_statement_tree, source_tree};
ghost use Rattle.sql_select.specs.Clauses.{bare, only};
ghost use Rattle.sql_select.specs.Simple.{simple as simple_select};

use sql_expr::{
    Alias, DistinctClause, Expr, FromClause, GroupByClause, HavingClause, LimitOffsetClause,
    LockingClause, Marks, OrderClause, SelectClause, SelectStatement, Source, TableSource,
    WhereClause,
};
use sql_schema::{NoMemory, Table};
use sql_source::{NewTableSource, QuerySource};
use std::alloc::Global;

/// A statement with this selection and source, and no other clause.
fn bare_select(select: SelectClause, from: FromClause) -> SelectStatement
    ensures { select_statement_tree result
        ≡ bare (select_clause_tree select).0 (select_clause_tree select).1 (from_clause_tree from) }
{
    SelectStatement {
        select,
        from,
        distinct: DistinctClause::NoDistinctClause,
        where_clause: WhereClause::NoWhereClause,
        order: OrderClause::NoOrderClause,
        limit_offset: LimitOffsetClause {
            limit_clause: None,
            offset_clause: None,
        },
        group_by: GroupByClause::NoGroupByClause,
        having: HavingClause::NoHavingClause,
        locking: LockingClause::NoLockingClause,
        marks: Marks::none(),
    }
}

/// A statement that begins with its source.
pub trait SimpleSelect: Sized {
    ghost made: { Self → tree.Statement };

    /// `SELECT "users"."id", "users"."name" FROM "users"`: the default selection of the source, and no other clause.
    fn simple(alloc: Global, source: Source) -> Result<Self, NoMemory>
        ensures { IfOk result (λ s. made s ≡ simple_select (source_tree source)) };
}

/// A value from which a statement can select.
pub trait AsQuery: Sized {
    /// It as a source.
    ghost source: { Self → tree.Source };

    /// `SELECT "users"."id", "users"."name" FROM "users"`: its default selection, and no other clause.
    fn as_query(self, alloc: Global) -> Result<SelectStatement, NoMemory>
        ensures { IfOk result (λ s. select_statement_tree s ≡ simple_select (source self)) };
}

impl SimpleSelect for SelectStatement {
    ghost made = { select_statement_tree };

    fn simple(alloc: Global, source: Source) -> Result<SelectStatement, NoMemory> {
        let selection = source.default_selection(alloc)?;
        let select = SelectClause::DefaultSelectClause(selection);
        Ok(bare_select(select, FromClause::FromClause(source)))
    }
}

impl AsQuery for Source {
    ghost source = { source_tree };

    fn as_query(self, alloc: Global) -> Result<SelectStatement, NoMemory> {
        SelectStatement::simple(alloc, self)
    }
}

impl AsQuery for Table {
    ghost source = { λ t. tree.of_table t false None };

    fn as_query(self, alloc: Global) -> Result<SelectStatement, NoMemory> {
        TableSource::new(self).as_query(alloc)
    }
}

impl AsQuery for &Table {
    ghost source = { λ t. tree.of_table t.now false None };

    fn as_query(self, alloc: Global) -> Result<SelectStatement, NoMemory> {
        self.try_clone(alloc)?.as_query(alloc)
    }
}

impl AsQuery for TableSource {
    ghost source = { λ t. tree.of_table t.table t.only t.sample };

    fn as_query(self, alloc: Global) -> Result<SelectStatement, NoMemory> {
        SelectStatement::simple(alloc, Source::Table(self))
    }
}

impl AsQuery for Alias {
    ghost source = { λ a. tree.of_alias a.name a.table };

    fn as_query(self, alloc: Global) -> Result<SelectStatement, NoMemory> {
        SelectStatement::simple(alloc, Source::Alias(self))
    }
}

/// `SELECT a`: a statement without a source, and without any other clause.
pub fn select(selection: Expr) -> SelectStatement
    ensures { select_statement_tree result ≡ only (expr_tree selection) }
{
    bare_select(
        SelectClause::SelectClause(selection),
        FromClause::NoFromClause,
    )
}
