//! The features that a statement needs and its dialect lacks, found by a test of one node after the other.
#![tactic(auto)]

ghost use Rattle.std.specs.Prelude.{◌≡◌};
ghost use Rattle.std.specs.Bool.{Decides};
ghost use Rattle.std.specs.List.{list_any};
ghost use Rattle.sql_schema.specs.Declarations.{Declarations};
ghost use Rattle.sql_node.specs.Tree.{Statement};
ghost use Rattle.sql_rules.specs.Rules.{Broken};
ghost use Rattle.sql_rules.specs.declared.rule.Rule.TheVariants as rule;
ghost use Rattle.sql_flat.specs.Flat.{flat_of};
ghost use Rattle.sql_flat.specs.declared.kind.FlatKind.TheVariants as K;
ghost use Rattle.sql_rules_check.specs.inside.Dialects.{is_distinct_on as unique_on, is_mysql as speaks_mysql, is_offset_alone as offset_alone, is_other as speaks_other, is_unboxed as form_unboxed, is_unsupported as kind_unsupported, lacks_form as form_lacking, lacks_lock as lock_lacking};

use sql_dialect::{Backend, Dialect};
use sql_flat::{Combining, Flat, FlatKind, FlatNode, Form, Selecting, Uniqueness};
use sql_leaf::{LimitOffsetClause, LockMode, LockingClause};

fn is_offset_alone(rows: LimitOffsetClause) -> bool
    ensures { result ≡ offset_alone rows }
{
    rows.limit_clause.is_none() && rows.offset_clause.is_some()
}

fn lacks_lock(dialect: Dialect, locking: LockingClause) -> bool
    ensures { result ≡ lock_lacking dialect locking }
{
    match locking {
        LockingClause::NoLockingClause => false,
        LockingClause::LockingClause(mode, _) => match dialect {
            Dialect::Pg => false,
            Dialect::Mysql => match mode {
                LockMode::ForUpdate | LockMode::ForShare => false,
                LockMode::ForNoKeyUpdate | LockMode::ForKeyShare => true,
            },
            Dialect::Sqlite | Dialect::Bracket => true,
        },
    }
}

fn lacks_form(dialect: Dialect, form: Form) -> bool
    ensures { result ≡ form_lacking dialect form }
{
    match form {
        Form::Unboxed(locking) => lacks_lock(dialect, locking),
        Form::Boxed(other, _) => dialect != other,
    }
}

fn is_other(dialect: Dialect) -> bool
    ensures { result ≡ speaks_other dialect }
{
    match dialect {
        Dialect::Pg => false,
        Dialect::Mysql | Dialect::Sqlite | Dialect::Bracket => true,
    }
}

fn is_mysql(dialect: Dialect) -> bool
    ensures { result ≡ speaks_mysql dialect }
{
    match dialect {
        Dialect::Mysql => true,
        Dialect::Pg | Dialect::Sqlite | Dialect::Bracket => false,
    }
}

fn is_unboxed(form: Form) -> bool
    ensures { result ≡ form_unboxed form }
{
    match form {
        Form::Unboxed(_) => true,
        Form::Boxed(_, _) => false,
    }
}

fn is_distinct_on(unique: Uniqueness) -> bool
    ensures { result ≡ unique_on unique }
{
    match unique {
        Uniqueness::Every | Uniqueness::Distinct => false,
        Uniqueness::DistinctOn => true,
    }
}

fn lacks_select(dialect: Dialect, select: &Selecting) -> bool
    ensures { result ≡ kind_unsupported dialect (K.Select select.now) }
{
    (is_other(dialect) && is_distinct_on(select.unique))
        || (lacks_form(dialect, select.form)
            || (is_mysql(dialect) && (is_unboxed(select.form) && is_offset_alone(select.rows))))
}

fn lacks_combination<DB: Backend>(backend: &DB, both: &Combining) -> bool
    ensures { result ≡ kind_unsupported DB.speaks (K.Combination both.now) }
{
    !backend.supports(both.combinator, both.duplicates)
        || (is_mysql(backend.dialect()) && is_offset_alone(both.rows))
}

fn is_unsupported<DB: Backend>(backend: &DB, kind: &FlatKind) -> bool
    ensures { result ≡ kind_unsupported DB.speaks kind.now }
{
    match kind {
        FlatKind::Table(source) => {
            is_other(backend.dialect()) && (source.only || source.sample.is_some())
        }
        FlatKind::Select(select) => lacks_select(backend.dialect(), select),
        FlatKind::Combination(both) => lacks_combination(backend, both),
        _ => false,
    }
}

fn any_unsupported<DB: Backend>(backend: &DB, nodes: &[FlatNode]) -> bool
    ensures { result ≡ list_any (λ x. kind_unsupported DB.speaks x.kind) nodes.now }
{
    nodes.iter().any(|node| is_unsupported(backend, &node.kind))
}

/// Whether the statement whose flat list this is needs something that the dialect lacks: `SELECT DISTINCT ON (..)` in
/// MySQL. Needs no memory, so it can't fail.
pub(crate) fn is_flat_unsupported<DB: Backend>(backend: &DB, flat: &Flat) -> bool
    ensures { (s : Statement) → flat.now ≡ flat_of s → (schema : Declarations)
        → Decides result (Broken rule.Unsupported schema DB.speaks s) }
{
    any_unsupported(backend, flat.nodes())
}
