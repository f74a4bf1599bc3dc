//! Aggregates and groups, by loops over the clauses of each select statement. They take no memory.
//!
//! At a select statement its children are looked at one by one, each from its node to its end, without the statements and
//! lists of values below it. Of `SELECT "a", count(*) FROM "t" GROUP BY "a"`:
//!
//! ```text
//! 0  Select       GROUP BY is at 6, and holds "a"
//! 1    List       "a" is grouped: Yes; count(*): Yes; so the selection has one value in each group
//! 2      Column "a"
//! 3      CountStar
//! 4    From       passed over
//! 6    GroupBy    holds no aggregate
//! ```
#![tactic(auto, using(crate::proofs::GroupTurns::grouping))]

ghost use Rattle.std.specs.Prelude.{◌≡◌, ◌+◌, ◌<◌, ◌&&◌, ◌||◌, drop};
ghost use Rattle.std.specs.Bool.{Decides};
ghost use Rattle.std.specs.List.{list_any};
ghost use Rattle.std.specs.Str.{bytes_eq};
ghost use Rattle.sql_schema.specs.Declarations.{Declarations};
ghost use Rattle.sql_dialect.specs.declared.backend.Dialect.{Dialect};
ghost use Rattle.sql_node.specs.Tree.{Statement};
ghost use Rattle.sql_origin.specs.Borrowed.{origin_of};
ghost use Rattle.sql_origin.specs.Origins.{same_origin};
ghost use Rattle.sql_rules.specs.Rules.{Broken};
ghost use Rattle.sql_rules.specs.Verdicts.{holds_column, holds_key as holds_whole_key, mix as mixed};
ghost use Rattle.sql_rules.specs.declared.rule.Rule.TheVariants as rule;
ghost use Rattle.sql_flat.specs.Flat.{flat_of};
ghost use Rattle.sql_rules_check.specs.inside.Ahead.{any_ahead};
ghost use Rattle.sql_rules_check.specs.inside.Grouping.{adding as added, all_give, breaks as sums_break, column_gives, field_at, field_passed, fields_by, fields_from, group_in, is_aggregate as aggregates, is_none as gives_none, is_unboxed as form_unboxed, kind_gives, misgrouped_at, nothing_summed, own_at, own_from, own_passed, piece_at, select_breaks, summed, sums_of, verdict_of};
ghost use Rattle.sql_rules_check.specs.inside.Kids.{kids_from};

use crate::names::origin_under;
use crate::walk::{All, Passing, Walk};
use sql_flat::{Flat, FlatKind, FlatNode, Form, Selecting};
use sql_origin::Origin;
use sql_schema::Column;

/// Whether an expression has a value for each row, one for each group, either, or neither.
#[derive(Debug, Clone, Copy, PartialEq, Eq)]
enum Verdict {
    No,
    Yes,
    Never,
    NoVerdict,
}

/// The nodes of a GROUP BY, from its own to the index after the last.
#[derive(Debug, Clone, Copy, PartialEq, Eq)]
struct Group {
    start: usize,
    end: usize,
}

/// The verdicts on the selection, DISTINCT ON and the order, and whether an aggregate stands in WHERE or GROUP BY.
#[derive(Debug, Clone, Copy, PartialEq, Eq)]
struct Sums {
    selected: Verdict,
    distinct: Verdict,
    ordered: Verdict,
    aggregate: bool,
}

fn mix(left: Verdict, right: Verdict) -> Verdict
    ensures { verdict_of result ≡ mixed (verdict_of left) (verdict_of right) }
{
    match (left, right) {
        (Verdict::NoVerdict, _) => Verdict::NoVerdict,
        (_, Verdict::NoVerdict) => Verdict::NoVerdict,
        (Verdict::Never, other) => other,
        (other, Verdict::Never) => other,
        (Verdict::No, Verdict::No) => Verdict::No,
        (Verdict::Yes, Verdict::Yes) => Verdict::Yes,
        (Verdict::No, Verdict::Yes) => Verdict::NoVerdict,
        (Verdict::Yes, Verdict::No) => Verdict::NoVerdict,
    }
}

fn is_none(verdict: Verdict) -> bool
    ensures { result ≡ gives_none (verdict_of verdict) }
{
    match verdict {
        Verdict::NoVerdict => true,
        Verdict::No | Verdict::Yes | Verdict::Never => false,
    }
}

/// Over all but what is counted, subselects and lists of values.
struct Own;

impl Passing for Own {
    ghost passed = { own_passed };

    fn is_passed(kind: &FlatKind) -> bool {
        match kind {
            FlatKind::Count | FlatKind::Values(_) => true,
            FlatKind::Select(_) | FlatKind::Combination(_) => true,
            _ => false,
        }
    }
}

/// Over the nodes that may be fields of a GROUP BY.
struct Fields;

impl Passing for Fields {
    ghost passed = { field_passed };

    fn is_passed(kind: &FlatKind) -> bool {
        match kind {
            FlatKind::List | FlatKind::Nullable | FlatKind::GroupBy => false,
            _ => true,
        }
    }
}

fn is_aggregate(kind: &FlatKind) -> bool
    ensures { result ≡ aggregates kind.now }
{
    match kind {
        FlatKind::CountStar | FlatKind::Count => true,
        _ => false,
    }
}

/// Whether an aggregate is among the nodes from one index to another, outside subselects.
fn has_aggregate(nodes: &[FlatNode], from: usize, end: usize) -> bool
    ensures { result ≡ list_any aggregates (own_from end from nodes.now) }
{
    Walk::<Own>::new(nodes, from, end).any(|(_, node)| is_aggregate(&node.kind))
}

/// Whether it is the column of that name. Names are compared first: whole tables, only where they agree.
fn is_field(kind: &FlatKind, origin: Origin<'_>, name: &str) -> bool
    ensures { result ≡ holds_column (field_at kind.now) (origin_of origin.entry) name.now }
{
    match kind {
        FlatKind::Column(alias, column) => {
            column.name() == name && origin_under(alias, column).is_same(origin)
        }
        _ => false,
    }
}

/// Whether a GROUP BY has the column of that name.
fn holds(nodes: &[FlatNode], group: Group, origin: Origin<'_>, name: &str) -> bool
    ensures { result
        ≡ holds_column (fields_from group.end group.start nodes.now) (origin_of origin.entry)
        name.now }
{
    Walk::<Fields>::new(nodes, group.start, group.end).any(|(_, node)| is_field(
        &node.kind, origin, name,
    ))
}

fn holds_key(nodes: &[FlatNode], group: Group, origin: Origin<'_>) -> bool
    ensures { result
        ≡ holds_whole_key (fields_from group.end group.start nodes.now) (origin_of origin.entry) }
{
    let key = origin.table.primary_key();
    key.iter()
        .all(|name| holds(nodes, group, origin, name.as_str()))
}

fn column_verdict(
    nodes: &[FlatNode],
    group: Option<Group>,
    origin: Origin<'_>,
    column: &Column,
) -> Verdict
    ensures { verdict_of result
        ≡ column_gives (fields_by nodes.now group) (origin_of origin.entry) column.now.decl }
{
    match group {
        None => Verdict::No,
        Some(group) => {
            if holds(nodes, group, origin, column.name()) || holds_key(nodes, group, origin) {
                Verdict::Yes
            } else {
                Verdict::NoVerdict
            }
        }
    }
}

fn kind_verdict(nodes: &[FlatNode], group: Option<Group>, kind: &FlatKind) -> Verdict
    ensures { verdict_of result ≡ kind_gives (fields_by nodes.now group) kind.now }
{
    match kind {
        FlatKind::Column(alias, column) => {
            column_verdict(nodes, group, origin_under(alias, column), column)
        }
        FlatKind::CountStar | FlatKind::Count => Verdict::Yes,
        _ => Verdict::Never,
    }
}

/// The verdict on the nodes from one index to another, outside subselects.
fn own_verdict(nodes: &[FlatNode], group: Option<Group>, from: usize, end: usize) -> Verdict
    ensures { verdict_of result ≡ all_give (fields_by nodes.now group) (own_from end from nodes.now) }
{
    Walk::<Own>::new(nodes, from, end).fold(Verdict::Never, |all, (_, node)| {
        mix(all, kind_verdict(nodes, group, &node.kind))
    })
}

/// The GROUP BY among the clauses from one index to another.
fn find_group(nodes: &[FlatNode], from: usize, end: usize) -> Option<Group>
    ensures { fields_by nodes.now result ≡ group_in (kids_from piece_at end from nodes.now) }
{
    for (start, node) in Walk::<All>::new(nodes, from, end) {
        if let FlatKind::GroupBy = &node.kind {
            return Some(Group {
                start,
                end: node.end,
            });
        }
    }
    None
}

impl Sums {
    /// With those of a clause, or of a selection.
    fn adding(
        mut self,
        nodes: &[FlatNode],
        group: Option<Group>,
        index: usize,
        node: &FlatNode,
    ) -> Sums
        ensures { sums_of result
            ≡ added (fields_by nodes.now group) (sums_of self) node.now.kind
            (own_from node.now.end index nodes.now) }
    {
        match &node.kind {
            FlatKind::From | FlatKind::Having => {}
            FlatKind::Where | FlatKind::GroupBy => {
                self.aggregate = self.aggregate || has_aggregate(nodes, index, node.end);
            }
            FlatKind::DistinctOn => {
                self.distinct = mix(self.distinct, own_verdict(nodes, group, index, node.end));
            }
            FlatKind::OrderBy => {
                self.ordered = mix(self.ordered, own_verdict(nodes, group, index, node.end));
            }
            _ => self.selected = mix(self.selected, own_verdict(nodes, group, index, node.end)),
        }
        self
    }
}

/// Of the clauses from one index to another.
fn clause_sums(nodes: &[FlatNode], group: Option<Group>, from: usize, end: usize) -> Sums
    ensures { sums_of result
        ≡ summed (fields_by nodes.now group) nothing_summed (kids_from piece_at end from nodes.now) }
{
    let mut all = Sums {
        selected: Verdict::Never,
        distinct: Verdict::Never,
        ordered: Verdict::Never,
        aggregate: false,
    };
    for (index, node) in Walk::<All>::new(nodes, from, end) {
        all = all.adding(nodes, group, index, node);
    }
    all
}

fn is_unboxed(form: Form) -> bool
    ensures { result ≡ form_unboxed form }
{
    match form {
        Form::Unboxed(_) => true,
        Form::Boxed(_, _) => false,
    }
}

/// Whether they break the rule. The order of a boxed statement is not looked at.
fn breaks(form: Form, sums: Sums) -> bool
    ensures { result ≡ sums_break form (sums_of sums) }
{
    sums.aggregate
        || ((is_none(sums.selected) || is_none(sums.distinct))
            || (is_unboxed(form)
                && (is_none(mix(sums.selected, sums.ordered))
                    || is_none(mix(sums.selected, sums.distinct)))))
}

fn select_misgroups(nodes: &[FlatNode], select: &Selecting, from: usize, end: usize) -> bool
    ensures { result ≡ select_breaks select.now.form (kids_from piece_at end from nodes.now) }
{
    let group = find_group(nodes, from, end);
    breaks(select.form, clause_sums(nodes, group, from, end))
}

fn is_misgrouped(nodes: &[FlatNode], index: usize, node: &FlatNode) -> bool
    requires { index < 18446744073709551615 }
    ensures { result ≡ misgrouped_at index node.now (drop (index + 1) nodes.now) }
{
    match &node.kind {
        FlatKind::Select(select) => select_misgroups(nodes, select, index + 1, node.end),
        FlatKind::Count => has_aggregate(nodes, index + 1, node.end),
        _ => false,
    }
}

fn any_misgrouped(nodes: &[FlatNode]) -> bool
    ensures { result ≡ any_ahead misgrouped_at 0 nodes.now }
{
    for (index, node) in nodes.iter().enumerate() {
        if is_misgrouped(nodes, index, node) {
            return true;
        }
    }
    false
}

/// Whether an aggregate stands where none may, or what is selected has no one value in a group, in the statement whose
/// flat list this is: `SELECT "users"."id", count(*) FROM "users"`. It takes no memory.
pub(crate) fn is_flat_misgrouped(flat: &Flat) -> bool
    ensures { (s : Statement) → flat.now ≡ flat_of s → (schema : Declarations) (d : Dialect)
        → Decides result (Broken rule.Grouping schema d s) }
{
    any_misgrouped(flat.nodes())
}
