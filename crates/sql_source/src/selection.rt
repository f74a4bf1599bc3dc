#![tactic(auto, using(sql_node::proofs::Trees::opens_expr, sql_node::proofs::Trees::opens_source, sql_node::proofs::Trees::opens_join_on, sql_node::proofs::Trees::opens_join, crate::proofs::SelectionLaws::selections))]

ghost use Rattle.std.specs.Prelude.{◌≡◌, IfOk, map};
ghost use Rattle.sql_node.specs.Tree as tree;
ghost use Rattle.sql_node.specs.View.{expr_tree, source_tree};
ghost use Rattle.sql_origin.specs.Borrowed.{origin_of};
ghost use Rattle.sql_source.specs.Selections.{appended_list, default_list, origin_columns, padded, selected};

use sql_leaf::JoinKind;
use sql_node::{Expr, Source};
use sql_origin::Origin;
use sql_schema::{NoMemory, SqlList};
use std::alloc::Global;

/// A source that can stand after `FROM`.
pub trait QuerySource {
    /// The source.
    ghost source: { Self → tree.Source };

    /// The source itself.
    fn from_clause(&self) -> &Source
        ensures { source_tree result.now ≡ source self.now };

    /// The list of all columns, leaf by leaf: `"users"."id", "users"."name"`. Those in the right side of a left outer join
    /// are nullable.
    fn default_selection(&self, alloc: Global) -> Result<Expr, NoMemory>
        ensures { IfOk result (λ e. expr_tree e ≡ default_list (source self.now)) };
}

/// Default selections with something more.
pub trait AppendSelection {
    /// The source.
    ghost appends_to: { Self → tree.Source };

    /// The list of all columns, and the expression as its last element.
    fn append_selection(&self, alloc: Global, selection: Expr) -> Result<Expr, NoMemory>
        ensures { IfOk result (λ e. expr_tree e
            ≡ appended_list (appends_to self.now) (expr_tree selection)) };
}

/// The columns of a table, or the fields of an alias.
fn columns(alloc: Global, origin: Origin) -> Result<Vec<Expr>, NoMemory>
    ensures { IfOk result (λ v. map expr_tree v.items ≡ origin_columns (origin_of origin.entry)) }
{
    let mut all = Vec::new(alloc);
    for column in origin.table.all_columns(alloc)? {
        all.push(origin.column(alloc, column)?)?;
    }
    Ok(all)
}

fn nullable_each(alloc: Global, exprs: Vec<Expr>) -> Result<Vec<Expr>, NoMemory>
    ensures { IfOk result (λ v. map expr_tree v.items
        ≡ map tree.nullable (map expr_tree exprs.items)) }
{
    let mut all = Vec::new(alloc);
    for expr in exprs {
        all.push(Expr::Nullable(Box::new(alloc, expr)?))?;
    }
    Ok(all)
}

/// The columns of a join's right side.
fn right_columns(alloc: Global, kind: JoinKind, columns: Vec<Expr>) -> Result<Vec<Expr>, NoMemory>
    ensures { IfOk result (λ v. map expr_tree v.items ≡ padded kind (map expr_tree columns.items)) }
{
    match kind {
        JoinKind::Inner => Ok(columns),
        JoinKind::LeftOuter => nullable_each(alloc, columns),
    }
}

fn all_columns(alloc: Global, source: &Source) -> Result<Vec<Expr>, NoMemory>
    ensures { IfOk result (λ v. map expr_tree v.items ≡ selected (source_tree source.now)) }
{
    match source {
        Source::Table(table) => columns(alloc, Origin::of_table(&table.table)),
        Source::Alias(alias) => columns(alloc, Origin::of_alias(alias)),
        Source::Join(join) => {
            let sides = &join.join;
            let mut all = all_columns(alloc, &sides.left)?;
            let right = all_columns(alloc, &sides.right)?;
            let mut right = right_columns(alloc, sides.kind, right)?;
            all.append(&mut right)?;
            Ok(all)
        }
    }
}

impl QuerySource for Source {
    ghost source = { source_tree };

    fn from_clause(&self) -> &Source {
        self
    }

    fn default_selection(&self, alloc: Global) -> Result<Expr, NoMemory> {
        Ok(Expr::List(SqlList::from(all_columns(alloc, self)?)))
    }
}

impl AppendSelection for Source {
    ghost appends_to = { source_tree };

    fn append_selection(&self, alloc: Global, selection: Expr) -> Result<Expr, NoMemory> {
        let mut all = all_columns(alloc, self)?;
        all.push(selection)?;
        Ok(Expr::List(SqlList::from(all)))
    }
}
