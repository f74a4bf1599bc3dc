//! Policies: which rows of a table are seen.
#![tactic(auto, using(sql_node::proofs::Trees::opens_expr, crate::proofs::Misreading::misreading))]

ghost use Rattle.std.specs.Prelude.{◌≡◌, ◌||◌, IfOk, map, option_map};
ghost use Rattle.std.specs.Bool.{Decides};
ghost use Rattle.std.specs.List.{list_any};
ghost use Rattle.sql_schema.specs.Equality.{same_table};
ghost use Rattle.sql_node.specs.View.{expr_tree};
ghost use Rattle.sql_rules.specs.Lists.{Each};
ghost use Rattle.sql_guard.specs.Misread.{is_misread as misread, is_negation as negation};
ghost use Rattle.sql_guard.specs.Closed.{IsSound, is_one_sql_table as one_sql_table, is_redeclared as redeclared, may_be_one, policy_on};
ghost use Rattle.sql_guard.specs.Trees.{policy_tree};
ghost use Rattle.sql_guard.specs.inside.Kinds.{is_covered as table_covered};

use crate::leaves::is_one_table;
use crate::refusal::{and_not, is_predicate};
use sql_node::Expr;
use sql_schema::{NoMemory, Table};
use std::alloc::Global;

/// A table, and the predicate on its rows that says which of them are seen. Without one all are, so that a table that tenants share is
/// named too.
#[derive(Debug, Drop)]
pub struct Policy {
    pub table: Table,
    pub predicate: Option<Expr>,
}

/// Whether it is written as a NOT.
fn is_negation(expr: &Expr) -> bool
    ensures { result ≡ negation (expr_tree expr.now) }
{
    match expr {
        Expr::Not(_) => true,
        Expr::Nullable(a) => is_negation(a),
        _ => false,
    }
}

/// Whether the operand is a NOT, or has one as an operand.
#[cycle(misread)]
fn is_misread_operand(expr: &Expr) -> bool
    ensures { result ≡ (negation (expr_tree expr.now) || misread (expr_tree expr.now)) }
{
    is_negation(expr) || is_misread(expr)
}

/// Whether a NOT is an operand of a comparison, a null test or a membership.
#[cycle(misread)]
fn is_misread(expr: &Expr) -> bool
    ensures { result ≡ misread (expr_tree expr.now) }
{
    match expr {
        Expr::Nullable(a) | Expr::Not(a) | Expr::Count(a) => is_misread(a),
        Expr::IsNull(a) | Expr::IsNotNull(a) => is_misread_operand(a),
        Expr::EqAny(a, _) | Expr::NeAll(a, _) => is_misread_operand(a),
        Expr::And(a, b) | Expr::Or(a, b) => is_misread(a) || is_misread(b),
        Expr::Eq(a, b)
        | Expr::Ne(a, b)
        | Expr::Gt(a, b)
        | Expr::Ge(a, b)
        | Expr::Lt(a, b)
        | Expr::Le(a, b) => is_misread_operand(a) || is_misread_operand(b),
        Expr::Column(_)
        | Expr::Field(_)
        | Expr::Value(_, _)
        | Expr::List(_)
        | Expr::CountStar
        | Expr::Exists(_)
        | Expr::Subselect(_) => false,
    }
}

/// Whether the predicate is a condition on the rows of the table alone, and is read as it is meant.
fn is_sound_on(alloc: Global, table: &Table, predicate: &Expr) -> Result<bool, NoMemory>
    ensures { IfOk result (λ b. Decides b (IsSound (policy_on table.now (expr_tree predicate.now)))) }
{
    let condition = is_predicate(alloc, table, predicate)?;
    let misread = is_misread(predicate);
    Ok(and_not(condition, misread))
}

fn is_sound(alloc: Global, policy: &Policy) -> Result<bool, NoMemory>
    ensures { IfOk result (λ b. Decides b (IsSound (policy_tree policy.now))) }
{
    match &policy.predicate {
        None => Ok(true),
        Some(predicate) => is_sound_on(alloc, &policy.table, predicate),
    }
}

/// Whether each of the policies is sound.
pub(crate) fn are_sound(alloc: Global, policies: &[Policy]) -> Result<bool, NoMemory>
    ensures { IfOk result (λ b. Decides b (Each IsSound (map policy_tree policies.now))) }
{
    for policy in policies {
        let sound = is_sound(alloc, policy)?;
        if !sound {
            return Ok(false);
        }
    }
    Ok(true)
}

fn may_be_one_schema(one: Option<&str>, other: Option<&str>) -> bool
    ensures { result ≡ may_be_one (option_map (λ s. s.now) one.entry)
        (option_map (λ s. s.now) other.entry) }
{
    match (one, other) {
        (Some(one), Some(other)) => one.eq_ignore_ascii_case(other),
        _ => true,
    }
}

/// Whether both may be one table of the server, whose names are compared without case.
fn is_one_sql_table(one: &Table, other: &Table) -> bool
    ensures { result ≡ one_sql_table one.now other.now }
{
    let (schema, name) = one.path();
    let (other_schema, other_name) = other.path();
    name.eq_ignore_ascii_case(other_name) && may_be_one_schema(schema, other_schema)
}

/// Whether they are two declarations of what may be one table of the server.
fn is_redeclared(one: &Table, other: &Table) -> bool
    ensures { result ≡ redeclared one.now other.now }
{
    is_one_sql_table(one, other) && !is_one_table(one, other)
}

fn has_policy(policies: &[Policy], table: &Table) -> bool
    ensures { result ≡ list_any (λ q. same_table q.table table.now) policies.now }
{
    policies
        .iter()
        .any(|policy| is_one_table(&policy.table, table))
}

fn has_other_declaration(policies: &[Policy], table: &Table) -> bool
    ensures { result ≡ list_any (λ q. redeclared q.table table.now) policies.now }
{
    policies
        .iter()
        .any(|policy| is_redeclared(&policy.table, table))
}

/// Whether the policies say which rows of the table are seen: one names it, and none names another declaration of it.
pub(crate) fn is_covered(policies: &[Policy], table: &Table) -> bool
    ensures { result ≡ table_covered policies.now table.now }
{
    has_policy(policies, table) && !has_other_declaration(policies, table)
}
