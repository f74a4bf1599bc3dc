//! The order of tables and of columns, and when two are equal. A table keeps its names spelled as one text, so that
//! comparing two tables compares two texts, and types and lengths.
ghost use Rattle.std.specs.Prelude.{◌≡◌};
ghost use Rattle.std.specs.Ordering.{as_partial_cmp, eq_by_cmp};
ghost use Rattle.std.specs.Cmp.{eq_by_cmp_equiv, partial_equiv_from_equiv, partial_order_from_total};
ghost use Rattle.std.specs.Cmp.Lexicographic.{slice_cmp};
ghost use Rattle.std.specs.Cmp.Rules.{comparing};
ghost use Rattle.std.proofs.Common.{rules};
ghost use Rattle.sql_schema.specs.inside.Tables.{column_cmp, column_hash, declared_cmp, declared_total, same_column_hash, same_hash, sized_cmp, table_cmp, table_hash, tables_total};

use crate::{Column, ColumnDecl, Table};
use std::cmp::Ordering;
use std::hash::{Hash, Hasher};

fn cmp_column(one: &ColumnDecl, other: &ColumnDecl) -> Ordering
    ensures { result ≡ column_cmp one.now other.now }
{
    one.name
        .cmp(&other.name)
        .then_with(|| one.sql_name.cmp(&other.sql_name))
        .then_with(|| one.ty.cmp(&other.ty))
        .then_with(|| one.max_length.cmp(&other.max_length))
}

fn cmp_sizes(one: &ColumnDecl, other: &ColumnDecl) -> Ordering
    ensures { result ≡ sized_cmp one.now other.now }
{
    one.ty
        .cmp(&other.ty)
        .then_with(|| one.max_length.cmp(&other.max_length))
}

fn cmp_columns(one: &[ColumnDecl], other: &[ColumnDecl]) -> Ordering
    ensures { result ≡ slice_cmp sized_cmp one.now other.now }
{
    let mut rest = other;
    for column in one {
        let Some((first, behind)) = rest.split_first() else {
            return Ordering::Greater;
        };
        let order = cmp_sizes(column, first);
        if order != Ordering::Equal {
            return order;
        }
        rest = behind;
    }
    if rest.is_empty() {
        Ordering::Equal
    } else {
        Ordering::Less
    }
}

impl PartialEq for Table {
    ghost eq = { eq_by_cmp table_cmp };

    ghost laws = { partial_equiv_from_equiv (eq_by_cmp_equiv tables_total) };

    fn eq(&self, other: &Table) -> bool {
        self.cmp(other) == Ordering::Equal
    }
}

impl Eq for Table {
    ghost laws = { eq_by_cmp_equiv tables_total };
}

impl Ord for Table {
    ghost cmp = { table_cmp };

    ghost total = { tables_total };

    ghost matches_partial_cmp = { Prim.search (comparing, rules) };

    ghost matches_eq = { Prim.search (comparing, rules) };

    fn cmp(&self, other: &Table) -> Ordering {
        self.spelled_names()
            .cmp(other.spelled_names())
            .then_with(|| cmp_columns(self.columns(), other.columns()))
    }
}

impl PartialOrd for Table {
    ghost partial_cmp = { as_partial_cmp table_cmp };

    ghost laws = { partial_order_from_total tables_total };

    fn partial_cmp(&self, other: &Table) -> Option<Ordering> {
        Some(self.cmp(other))
    }
}

/// By the name alone, so that a hash doesn't read all columns.
impl Hash for Table {
    ghost hash_input = { table_hash };

    ghost respects_eq = { same_hash };

    fn hash<H: Hasher>(&self, state: &mut H) {
        self.name().hash(state);
    }
}

impl PartialEq for Column {
    ghost eq = { eq_by_cmp declared_cmp };

    ghost laws = { partial_equiv_from_equiv (eq_by_cmp_equiv declared_total) };

    fn eq(&self, other: &Column) -> bool {
        self.cmp(other) == Ordering::Equal
    }
}

impl Eq for Column {
    ghost laws = { eq_by_cmp_equiv declared_total };
}

impl Ord for Column {
    ghost cmp = { declared_cmp };

    ghost total = { declared_total };

    ghost matches_partial_cmp = { Prim.search (comparing, rules) };

    ghost matches_eq = { Prim.search (comparing, rules) };

    fn cmp(&self, other: &Column) -> Ordering {
        self.table()
            .cmp(other.table())
            .then_with(|| cmp_column(self.decl(), other.decl()))
    }
}

impl PartialOrd for Column {
    ghost partial_cmp = { as_partial_cmp declared_cmp };

    ghost laws = { partial_order_from_total declared_total };

    fn partial_cmp(&self, other: &Column) -> Option<Ordering> {
        Some(self.cmp(other))
    }
}

/// By its own name alone.
impl Hash for Column {
    ghost hash_input = { column_hash };

    ghost respects_eq = { same_column_hash };

    fn hash<H: Hasher>(&self, state: &mut H) {
        self.name().hash(state);
    }
}
