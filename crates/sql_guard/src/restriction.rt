ghost use Rattle.std.specs.Prelude.{◌≡◌, IfOk, IfErr, map};
ghost use Rattle.sql_schema.specs.Declarations.{Declarations};
ghost use Rattle.sql_dialect.specs.declared.backend.Dialect.{Dialect};
ghost use Rattle.sql_node.specs.View.{expr_tree, statement_tree};
ghost use Rattle.sql_guard_law.specs.Policies.{AnswersAsCutBy, SeesOnlyBy, guarded_all, guarded_maybe_by};
ghost use Rattle.sql_guard_law.specs.Restricted.{restricted};
ghost use Rattle.sql_guard_law.specs.Tenant.{AnswersAsCut, BreaksAtMostTooManyBinds};
ghost use Rattle.sql_guard.specs.Closed.{IsGuardRefusal, MayGuard};
ghost use Rattle.sql_guard.specs.Refused.{IsRefusal, MayRestrict};
ghost use Rattle.sql_guard.specs.Trees.{policy_tree};

use crate::RestrictError;
use crate::guard::drop_query;
use crate::leaves::Guard;
use crate::policy::{Policy, are_sound};
use crate::refusal::{find_gaps, is_predicate, kept_from};
use sql_guard_law::{
    guard_is_exact, guard_keeps_the_rules, only_seen_rows_matter, restriction_is_exact,
    restriction_keeps_the_rules, without_subselects_restricting_is_enough,
};
use sql_node::{Expr, Statement};
use sql_schema::{NoMemory, Table};
use std::alloc::Global;

/// The statement with the predicate beside each leaf of the table: ` .. WHERE ("posts"."user_id" = $1)`. That of a leaf in the right
/// side of a left outer join stands in its ` ON `.
///
/// Over any database it answers exactly what the statement answers where the table has only the rows for which the predicate is
/// true, and it breaks no rule that the statement keeps, but perhaps `TooManyBinds` (`docs/GUARD.md`).
///
/// The statement stays as it is. `NoMemory` may stand in place of any answer.
pub fn restrict(
    alloc: Global,
    statement: &Statement,
    table: &Table,
    predicate: &Expr,
) -> Result<Statement, RestrictError>
    ensures restricted { IfOk result (λ r. statement_tree r
        ≡ restricted table.now (expr_tree predicate.now) (statement_tree statement.now)) }
    ensures kind { IfOk result (λ r. MayRestrict table.now (expr_tree predicate.now)
        (statement_tree statement.now)) }
    ensures exact { IfOk result (λ r. (schema : Declarations) (d : Dialect)
        → BreaksAtMostTooManyBinds schema d (statement_tree statement.now)
        → AnswersAsCut (statement_tree r) (statement_tree statement.now) table.now
        (expr_tree predicate.now)) }
    ensures rules { IfOk result (λ r. (schema : Declarations) (d : Dialect)
        → BreaksAtMostTooManyBinds schema d (statement_tree statement.now)
        → BreaksAtMostTooManyBinds schema d (statement_tree r)) }
    ensures refused { IfErr result (λ e. IsRefusal e table.now (expr_tree predicate.now)
        (statement_tree statement.now)) }
{
    if !is_predicate(alloc, table, predicate)? {
        return Err(RestrictError::BadPredicate);
    }
    let kept = kept_from(alloc, statement)?;
    if kept.out_of_kind {
        return Err(RestrictError::OutOfKind);
    }
    if kept.unrelated {
        return Err(RestrictError::NoRelation);
    }
    restriction_is_exact();
    restriction_keeps_the_rules();
    without_subselects_restricting_is_enough();
    let guard = Guard {
        alloc,
        table,
        predicate,
    };
    let restricted = guard.statement(statement)?;
    Ok(restricted)
}

/// The statement guarded by the policy.
#[inline(never)]
fn guarded_by(
    alloc: Global,
    policy: &Policy,
    statement: Box<Statement>,
) -> Result<Box<Statement>, NoMemory>
    ensures { IfOk result (λ b. statement_tree b.value
        ≡ guarded_maybe_by (policy_tree policy.now).table (policy_tree policy.now).predicate
        (statement_tree statement.value)) }
{
    match &policy.predicate {
        None => Ok(statement),
        Some(predicate) => {
            let guard = Guard {
                alloc,
                table: &policy.table,
                predicate,
            };
            let guarded = guard.query(&statement);
            drop_query(statement);
            guarded
        }
    }
}

fn in_a_box(alloc: Global, statement: &Statement) -> Result<Box<Statement>, NoMemory>
    ensures { IfOk result (λ b. statement_tree b.value ≡ statement_tree statement.now) }
{
    Ok(Box::new(alloc, statement.try_clone(alloc)?)?)
}

/// The statement guarded by each of the policies in turn, in a box.
fn guarded_in_a_box(
    alloc: Global,
    policies: &[Policy],
    statement: &Statement,
) -> Result<Box<Statement>, NoMemory>
    ensures { IfOk result (λ b. statement_tree b.value
        ≡ guarded_all (map policy_tree policies.now) (statement_tree statement.now)) }
{
    let mut guarded = in_a_box(alloc, statement)?;
    for policy in policies {
        guarded = guarded_by(alloc, policy, guarded)?;
    }
    Ok(guarded)
}

fn guarded_by_each(
    alloc: Global,
    policies: &[Policy],
    statement: &Statement,
) -> Result<Statement, NoMemory>
    ensures { IfOk result (λ r. statement_tree r
        ≡ guarded_all (map policy_tree policies.now) (statement_tree statement.now)) }
{
    Ok(Box::into_inner(guarded_in_a_box(alloc, policies, statement)?))
}

/// The statement guarded by policies: beside each leaf of a table, in subselects and in the sides of combinations too, stands each
/// predicate on it, as `restrict` puts it: `.. WHERE EXISTS (SELECT .. FROM "posts" WHERE (.. AND ("posts"."tenant" = $1)))`. A table
/// that two policies name has both predicates.
///
/// Over any database it answers exactly what the statement answers where each table has only the rows for which all its predicates are
/// true: COUNT and GROUP BY count and group those alone. Nothing but the rows that the policies let be seen matters to its answers. It
/// breaks no rule that the statement keeps, but perhaps `TooManyBinds` (`docs/GUARD.md`).
///
/// A table that no policy names is closed: a statement that reads one is refused, `LacksPolicy`, and so is one that reads a table which
/// policies name by another declaration.
///
/// The statement stays as it is. `NoMemory` may stand in place of any answer.
pub fn restrict_all(
    alloc: Global,
    statement: &Statement,
    policies: &[Policy],
) -> Result<Statement, RestrictError>
    ensures guarded { IfOk result (λ r. statement_tree r
        ≡ guarded_all (map policy_tree policies.now) (statement_tree statement.now)) }
    ensures kind { IfOk result (λ r. MayGuard (map policy_tree policies.now)
        (statement_tree statement.now)) }
    ensures exact { IfOk result (λ r. (schema : Declarations) (d : Dialect)
        → BreaksAtMostTooManyBinds schema d (statement_tree statement.now)
        → AnswersAsCutBy (statement_tree r) (statement_tree statement.now)
        (map policy_tree policies.now)) }
    ensures rules { IfOk result (λ r. (schema : Declarations) (d : Dialect)
        → BreaksAtMostTooManyBinds schema d (statement_tree statement.now)
        → BreaksAtMostTooManyBinds schema d (statement_tree r)) }
    ensures seen { IfOk result (λ r. (schema : Declarations) (d : Dialect)
        → BreaksAtMostTooManyBinds schema d (statement_tree statement.now)
        → SeesOnlyBy (map policy_tree policies.now) (statement_tree r)) }
    ensures refused { IfErr result (λ e. IsGuardRefusal e (map policy_tree policies.now)
        (statement_tree statement.now)) }
{
    if !are_sound(alloc, policies)? {
        return Err(RestrictError::BadPredicate);
    }
    let left = find_gaps(alloc, policies, statement)?;
    if left.unrelated {
        return Err(RestrictError::NoRelation);
    }
    if left.uncovered {
        return Err(RestrictError::LacksPolicy);
    }
    guard_is_exact();
    guard_keeps_the_rules();
    only_seen_rows_matter();
    let guarded = guarded_by_each(alloc, policies, statement)?;
    Ok(guarded)
}
