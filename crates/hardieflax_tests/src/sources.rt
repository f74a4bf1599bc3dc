//! The calls on tables, aliases and joins, and on what is selected of them by default.

ghost use Rattle.std.specs.Prelude.{◌≡◌, IfOk, None, Some, false, option_map, string_bytes, true};
ghost use Rattle.hardieflax.specs.Counts.{appearances, picked, sum_of};
ghost use Rattle.hardieflax.specs.Fields.{fields_in};
ghost use Rattle.hardieflax.specs.JoinKind.TheVariants.{Inner};
ghost use Rattle.hardieflax.specs.Joining.{side_tree, wrapper_tree};
ghost use Rattle.hardieflax.specs.Samples.{sampled};
ghost use Rattle.hardieflax.specs.Selections.{appended_list, default_list};
ghost use Rattle.hardieflax.specs.SourceJoins.{all_inner, joined_by, on_for};
ghost use Rattle.hardieflax.specs.TablesampleMethod.TheVariants.{SystemMethod};
ghost use Rattle.hardieflax.specs.View.{expr_tree, source_tree};

use hardieflax::{
    Alias, AliasFields, AliasSource, AppearsInFromClause, AppendSelection, Count, Expr,
    InternalJoinDsl, IntoJoinRhs, JoinDsl, JoinKind, JoinOnDsl, JoinRhs, JoinTo, NewAlias,
    NewOnClauseWrapper, NewTableSource, NoMemory, OnClauseWrapper, OnlyDsl, Plus, QuerySource,
    Schema, Side, SizeRestrictedColumn, Source, Table, TableNotEqual, TableSource, TablesampleDsl,
    ToInnerJoin, pick,
};
use std::alloc::Global;

/// `"users"`.
pub fn source_of(table: Table) -> TableSource
    ensures { result ≡ record { table = table; only = false; sample = None } }
{
    TableSource::new(table)
}

/// ` ONLY "users"`.
pub fn only<S: OnlyDsl>(source: S) -> TableSource
    ensures { result ≡ record (S.whole source) { only = true } }
{
    source.only()
}

/// `"users" TABLESAMPLE SYSTEM($1)`.
pub fn sampled_by_system<S: TablesampleDsl>(source: S, portion: i16) -> TableSource
    ensures { result ≡ sampled SystemMethod portion (S.whole source) }
{
    source.tablesample_system(portion)
}

/// The greatest length of a column's values.
pub fn greatest_length<C: SizeRestrictedColumn>(column: &C) -> Option<u64>
    ensures { result ≡ C.greatest_length column.now }
{
    column.max_length()
}

/// Whether two tables may stand together.
pub fn may_meet<S: TableNotEqual>(schema: &S, one: &Table, other: &Table) -> bool
    ensures { result ≡ S.stand_together schema.now one.now other.now }
{
    schema.allowed_together(one, other)
}

/// `"users" AS "u"`.
pub fn aliased(name: String, table: Table) -> Alias
    ensures { result ≡ record { name = string_bytes name; table = table } }
{
    Alias::new(name, table)
}

/// The alias itself.
pub fn alias_name<A: AliasSource>(alias: &A) -> &str
    ensures { result.now ≡ A.alias_name alias.now }
{
    alias.name()
}

/// `"u"."id"`, for each column of the table in an expression.
pub fn under_alias<A: AliasFields>(alloc: Global, alias: &A, expr: Expr) -> Result<Expr, NoMemory>
    ensures { IfOk result (λ e. expr_tree e
        ≡ fields_in (A.alias alias.now).name (A.alias alias.now).table (expr_tree expr)) }
{
    alias.fields(alloc, expr)
}

/// How often a part appears.
pub fn appears_by<W: AppearsInFromClause>(part: &W, source: &Source) -> Count
    ensures { result ≡ appearances (W.wanted part.now) (source_tree source.now) }
{
    part.appears_in(source)
}

/// Counts together.
pub fn together<P: Plus>(one: P, other: Count) -> Count
    ensures { result ≡ sum_of (P.count one) other }
{
    one.plus(other)
}

/// The side of a join on which something appears once.
pub fn side(left: Count, right: Count) -> Option<Side>
    ensures { result ≡ picked left right }
{
    pick(left, right)
}

/// `("users" INNER JOIN "posts" ON ..)`, on the relation that the schema declares.
pub fn inner_joined<S: JoinDsl>(
    alloc: Global,
    schema: &Schema,
    left: S,
    rhs: JoinRhs,
) -> Result<S, NoMemory>
    ensures { IfOk result (λ s. S.side s
        ≡ joined_by schema.now Inner (S.side left) (side_tree rhs)) }
{
    left.inner_join(alloc, schema, rhs)
}

/// Returns the right side of a join.
pub fn right_side<R: IntoJoinRhs>(of: R) -> JoinRhs
    ensures { side_tree result ≡ R.side of }
{
    of.into_join_rhs()
}

/// `("users" INNER JOIN "posts" ON a)`.
pub fn joined_on<S: InternalJoinDsl>(
    alloc: Global,
    left: S,
    rhs: Source,
    kind: JoinKind,
    on: Option<Expr>,
) -> Result<S, NoMemory>
    ensures { IfOk result (λ s. S.joins_as left (source_tree rhs) kind (option_map expr_tree on)
        s) }
{
    left.join(alloc, rhs, kind, on)
}

/// The right side of a join to come, and its condition.
pub fn target<J: JoinTo>(
    alloc: Global,
    schema: &Schema,
    left: &Source,
    rhs: JoinRhs,
) -> Result<(Source, Option<Expr>), NoMemory>
    ensures source { IfOk result (λ r. source_tree r.0 ≡ (side_tree rhs).source) }
    ensures on { IfOk result (λ r. option_map expr_tree r.1
        ≡ on_for schema.now (source_tree left.now) (side_tree rhs)) }
{
    J::join_target(alloc, schema, left, rhs)
}

/// `"posts" ON a`.
pub fn with_condition<S: JoinOnDsl>(source: S, on: Expr) -> OnClauseWrapper
    ensures { wrapper_tree result
        ≡ record { source = S.unconditional source; on = Some (expr_tree on) } }
{
    source.on(on)
}

/// The same.
pub fn wrapped<W: NewOnClauseWrapper>(source: Source, on: Expr) -> OnClauseWrapper
    ensures { wrapper_tree result
        ≡ record { source = source_tree source; on = Some (expr_tree on) } }
{
    W::new(source, on)
}

/// The same source with inner joins alone.
pub fn all_inner_joins<S: ToInnerJoin>(source: S) -> Source
    ensures { source_tree result ≡ all_inner (S.outer source) }
{
    source.to_inner_join()
}

/// All columns of a source.
pub fn all_of<S: QuerySource>(alloc: Global, source: &S) -> Result<Expr, NoMemory>
    ensures { IfOk result (λ e. expr_tree e ≡ default_list (S.source source.now)) }
{
    source.default_selection(alloc)
}

/// All columns of a source, and one more expression.
pub fn all_and<S: AppendSelection>(
    alloc: Global,
    source: &S,
    selection: Expr,
) -> Result<Expr, NoMemory>
    ensures { IfOk result (λ e. expr_tree e
        ≡ appended_list (S.appends_to source.now) (expr_tree selection)) }
{
    source.append_selection(alloc, selection)
}
