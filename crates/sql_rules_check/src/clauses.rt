//! Clauses that do not go together in one select statement, found by reading ahead from its node: from the first child, each
//! time to the node's end, the next child. Of the list that `sql_flat` shows, at the select statement: 1, 2, 4.
#![tactic(auto)]

ghost use Rattle.std.specs.Prelude.{◌≡◌, ◌+◌, ◌<◌, ◌||◌, drop};
ghost use Rattle.std.specs.Bool.{Decides};
ghost use Rattle.std.specs.List.{list_any};
ghost use Rattle.sql_schema.specs.Declarations.{Declarations};
ghost use Rattle.sql_dialect.specs.declared.backend.Dialect.{Dialect};
ghost use Rattle.sql_node.specs.Tree.{Statement};
ghost use Rattle.sql_rules.specs.Rules.{Broken, misuse as misused};
ghost use Rattle.sql_rules.specs.declared.rule.Rule.TheVariants as rule;
ghost use Rattle.sql_flat.specs.Flat.{flat_of};
ghost use Rattle.sql_rules_check.specs.inside.Ahead.{any_ahead, gathered_from};
ghost use Rattle.sql_rules_check.specs.inside.Clauses.{clash as clauses_clash, clause_at, has_lock as form_locked, incompatible_at, is_distinct as unique_distinct, is_group as groups_by, is_having as has_having};
ghost use Rattle.sql_rules_check.specs.inside.Kids.{all_passed};

use crate::walk::{All, Walk};
use sql_flat::{Flat, FlatKind, FlatNode, Form, Selecting, Uniqueness};
use sql_leaf::{LockingClause, Marks};

/// Whether a select statement has a GROUP BY, and a HAVING.
#[derive(Debug, Clone, Copy, PartialEq, Eq)]
struct Present {
    groups: bool,
    having: bool,
}

fn is_group(kind: &FlatKind) -> bool
    ensures { result ≡ groups_by kind.now }
{
    match kind {
        FlatKind::GroupBy => true,
        _ => false,
    }
}

fn is_having(kind: &FlatKind) -> bool
    ensures { result ≡ has_having kind.now }
{
    match kind {
        FlatKind::Having => true,
        _ => false,
    }
}

impl Present {
    /// With this clause too.
    fn noting(self, kind: &FlatKind) -> Present
        ensures groups { result.groups ≡ (self.groups || groups_by kind.now) }
        ensures having { result.having ≡ (self.having || has_having kind.now) }
    {
        let groups = self.groups || is_group(kind);
        let having = self.having || is_having(kind);
        Present { groups, having }
    }
}

/// The clauses from one index to another.
fn clauses(nodes: &[FlatNode], from: usize, end: usize) -> Present
    ensures groups { result.groups
        ≡ list_any groups_by (gathered_from clause_at all_passed end from nodes.now) }
    ensures having { result.having
        ≡ list_any has_having (gathered_from clause_at all_passed end from nodes.now) }
{
    let nothing = Present {
        groups: false,
        having: false,
    };
    Walk::<All>::new(nodes, from, end).fold(
        nothing,
        |present, (_, node)| present.noting(&node.kind),
    )
}

fn has_lock(form: Form) -> bool
    ensures { result ≡ form_locked form }
{
    match form {
        Form::Unboxed(LockingClause::NoLockingClause) => false,
        Form::Unboxed(LockingClause::LockingClause(_, _)) => true,
        Form::Boxed(_, _) => false,
    }
}

fn is_distinct(unique: Uniqueness) -> bool
    ensures { result ≡ unique_distinct unique }
{
    match unique {
        Uniqueness::Every => false,
        Uniqueness::Distinct | Uniqueness::DistinctOn => true,
    }
}

fn misuse(marks: Marks) -> bool
    ensures { result ≡ misused marks }
{
    marks.no_source
        || (marks.find_source || (marks.second_lock || (marks.no_lock || marks.boxed_lock)))
}

/// Whether a select statement has clauses that do not go together, or a call was made that it can't take.
fn clash(select: &Selecting, present: Present) -> bool
    ensures { result ≡ clauses_clash select.now present.groups present.having }
{
    misuse(select.marks)
        || ((has_lock(select.form)
            && (is_distinct(select.unique) || (present.groups || present.having)))
            || (present.having && !present.groups))
}

fn is_incompatible(nodes: &[FlatNode], index: usize, node: &FlatNode) -> bool
    requires { index < 18446744073709551615 }
    ensures { result ≡ incompatible_at index node.now (drop (index + 1) nodes.now) }
{
    match &node.kind {
        FlatKind::Select(select) => clash(select, clauses(nodes, index + 1, node.end)),
        _ => false,
    }
}

fn any_incompatible(nodes: &[FlatNode]) -> bool
    ensures { result ≡ any_ahead incompatible_at 0 nodes.now }
{
    for (index, node) in nodes.iter().enumerate() {
        if is_incompatible(nodes, index, node) {
            return true;
        }
    }
    false
}

/// Whether a select statement in the statement whose flat list this is has clauses that do not go together, as
/// `SELECT DISTINCT .. FOR UPDATE` has, or a call was made that it can't take. Needs no memory, so it can't fail.
pub(crate) fn is_flat_incompatible(flat: &Flat) -> bool
    ensures { (s : Statement) → flat.now ≡ flat_of s → (schema : Declarations) (d : Dialect)
        → Decides result (Broken rule.Incompatible schema d s) }
{
    any_incompatible(flat.nodes())
}
