//! Tables and aliases with the condition on which they are to be joined, without a source round them.
#![tactic(auto, using(sql_node::proofs::Trees::opens_source))]

ghost use Rattle.std.specs.Prelude.{false, None};
ghost use Rattle.sql_node.specs.Tree as tree;

use crate::join::JoinOnDsl;
use crate::table_source::NewTableSource as _;
use sql_expr::OnClauseWrapper;
use sql_leaf::{Alias, TableSource};
use sql_node::{Expr, Source};
use sql_schema::Table;

impl JoinOnDsl for TableSource {
    ghost unconditional = { λ t. tree.of_table t.table t.only t.sample };

    fn on(self, on: Expr) -> OnClauseWrapper {
        Source::Table(self).on(on)
    }
}

impl JoinOnDsl for Table {
    ghost unconditional = { λ t. tree.of_table t false None };

    fn on(self, on: Expr) -> OnClauseWrapper {
        TableSource::new(self).on(on)
    }
}

impl JoinOnDsl for Alias {
    ghost unconditional = { λ a. tree.of_alias a.name a.table };

    fn on(self, on: Expr) -> OnClauseWrapper {
        Source::Alias(self).on(on)
    }
}
