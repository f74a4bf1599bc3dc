#![tactic(auto, using(sql_node::proofs::Trees::opens_source, sql_node::proofs::Trees::opens_join_on, sql_node::proofs::Trees::opens_join, crate::proofs::CountLaws::counts))]

ghost use Rattle.std.specs.Prelude.{◌≡◌};
ghost use Rattle.sql_node.specs.Tree.{Origin as Wanted};
ghost use Rattle.sql_node.specs.View.{source_tree};
ghost use Rattle.sql_source.specs.Counts.{appearances, once_if};
ghost use Rattle.sql_origin.specs.Borrowed.{origin_of};
ghost use Rattle.sql_origin.specs.Origins.{a_table, an_alias, column_origin, field_origin, same_origin};

use crate::{Count, Plus};
use sql_leaf::{Alias, AliasedField, TableSource};
use sql_node::Source;
use sql_origin::Origin;
use sql_schema::Column;

/// A table or an alias, or something that belongs to one, which can appear in a source.
pub trait AppearsInFromClause {
    /// The table or the alias that is looked for.
    ghost wanted: { Self → Wanted };

    /// How many leaves of the source are that table or that alias. In `"users" INNER JOIN "users" AS "u2"` the table `users`
    /// appears once, and so does its alias `u2`.
    fn appears_in(&self, source: &Source) -> Count
        ensures { result ≡ appearances (wanted self.now) (source_tree source.now) };
}

fn count_leaf(wanted: Origin, leaf: Origin) -> Count
    ensures { result ≡ once_if (same_origin (origin_of wanted.entry) (origin_of leaf.entry)) }
{
    if wanted.is_same(leaf) {
        Count::Once
    } else {
        Count::Never
    }
}

fn count_leaves(wanted: Origin, source: &Source) -> Count
    ensures { result ≡ appearances (origin_of wanted.entry) (source_tree source.now) }
{
    match source {
        Source::Table(table) => count_leaf(wanted, Origin::of_table(&table.table)),
        Source::Alias(alias) => count_leaf(wanted, Origin::of_alias(alias)),
        Source::Join(join) => {
            let sides = &join.join;
            count_leaves(wanted, &sides.left).plus(count_leaves(wanted, &sides.right))
        }
    }
}

impl AppearsInFromClause for TableSource {
    ghost wanted = { λ s. a_table s.table };

    fn appears_in(&self, source: &Source) -> Count {
        count_leaves(Origin::of_table(&self.table), source)
    }
}

impl AppearsInFromClause for Alias {
    ghost wanted = { λ a. an_alias a.name a.table };

    fn appears_in(&self, source: &Source) -> Count {
        count_leaves(Origin::of_alias(self), source)
    }
}

/// Its table is looked for.
impl AppearsInFromClause for Column {
    ghost wanted = { column_origin };

    fn appears_in(&self, source: &Source) -> Count {
        count_leaves(Origin::of_table(self.table()), source)
    }
}

/// Its alias is looked for.
impl AppearsInFromClause for AliasedField {
    ghost wanted = { field_origin };

    fn appears_in(&self, source: &Source) -> Count {
        count_leaves(Origin::of_field(self), source)
    }
}
