#![tactic(auto, using(sql_node::proofs::Trees::opens_source))]

ghost use Rattle.std.specs.Prelude.{◌≡◌, false, None};
ghost use Rattle.sql_node.specs.Tree as tree;
ghost use Rattle.sql_node.specs.View.{source_tree};
ghost use Rattle.sql_expr.specs.Joining.{Side, side_tree, without_condition, wrapper_tree};

use crate::on_clause::{JoinRhs, OnClauseWrapper};
use sql_leaf::{Alias, TableSource};
use sql_node::Source;
use sql_schema::Table;

/// What can stand on the right side of a join: a table, an alias, a source, or one of them with its condition.
pub trait IntoJoinRhs: Sized {
    /// The source, and the condition where it has one.
    ghost side: { Self → Side };

    /// Returns it as the right side of a join: of a table `"posts"`, to be joined on the relation that the schema declares.
    fn into_join_rhs(self) -> JoinRhs
        ensures { side_tree result ≡ side self };
}

impl IntoJoinRhs for JoinRhs {
    ghost side = { side_tree };

    fn into_join_rhs(self) -> JoinRhs {
        self
    }
}

impl IntoJoinRhs for OnClauseWrapper {
    ghost side = { wrapper_tree };

    fn into_join_rhs(self) -> JoinRhs {
        JoinRhs::On(self)
    }
}

impl IntoJoinRhs for Source {
    ghost side = { λ s. without_condition (source_tree s) };

    fn into_join_rhs(self) -> JoinRhs {
        JoinRhs::Source(self)
    }
}

impl IntoJoinRhs for TableSource {
    ghost side = { λ t. without_condition (tree.of_table t.table t.only t.sample) };

    fn into_join_rhs(self) -> JoinRhs {
        JoinRhs::Source(Source::Table(self))
    }
}

impl IntoJoinRhs for Table {
    ghost side = { λ t. without_condition (tree.of_table t false None) };

    fn into_join_rhs(self) -> JoinRhs {
        JoinRhs::Source(Source::Table(TableSource {
            table: self,
            only: false,
            sample: None,
        }))
    }
}

impl IntoJoinRhs for Alias {
    ghost side = { λ a. without_condition (tree.of_alias a.name a.table) };

    fn into_join_rhs(self) -> JoinRhs {
        JoinRhs::Source(Source::Alias(self))
    }
}

impl From<OnClauseWrapper> for JoinRhs {
    ghost from_gives = { λ w s. side_tree s ≡ wrapper_tree w };

    fn from(wrapper: OnClauseWrapper) -> JoinRhs {
        wrapper.into_join_rhs()
    }
}

impl From<Source> for JoinRhs {
    ghost from_gives = { λ source s. side_tree s ≡ without_condition (source_tree source) };

    fn from(source: Source) -> JoinRhs {
        source.into_join_rhs()
    }
}

impl From<TableSource> for JoinRhs {
    ghost from_gives = { λ t s. side_tree s
        ≡ without_condition (tree.of_table t.table t.only t.sample) };

    fn from(table: TableSource) -> JoinRhs {
        table.into_join_rhs()
    }
}

impl From<Table> for JoinRhs {
    ghost from_gives = { λ t s. side_tree s ≡ without_condition (tree.of_table t false None) };

    fn from(table: Table) -> JoinRhs {
        table.into_join_rhs()
    }
}

impl From<Alias> for JoinRhs {
    ghost from_gives = { λ a s. side_tree s ≡ without_condition (tree.of_alias a.name a.table) };

    fn from(alias: Alias) -> JoinRhs {
        alias.into_join_rhs()
    }
}
