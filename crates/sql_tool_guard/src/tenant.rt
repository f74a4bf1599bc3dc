ghost use Rattle.std.specs.Prelude.{◌≡◌, IfOk, map, option_map};
ghost use Rattle.sql_build_syntax.specs.View as written;
ghost use Rattle.sql_guard.specs.Trees.{policy_tree};
ghost use Rattle.sql_node.specs.View.{expr_tree, maybe_of};
ghost use Rattle.sql_tool_document.specs.Giving.{Gives};
ghost use Rattle.sql_tool_document.specs.Trees.{guard_tree, guarded_tree, named_policy_tree, policed_tree};
ghost use Rattle.sql_tool_guard.specs.Tenants.{policed_document, policed_in, policies_named, policy_named, predicate_named, tenant_document, tenant_in, tenant_of};
ghost use Rattle.sql_tool_guard.specs.Trees.{tenant_document_tree, tenant_tree};

use sql_build::expression;
use sql_dialect::Dialect;
use sql_guard::Policy;
use sql_node::Expr;
use sql_schema::{NoMemory, Schema, SqlList, Table};
use sql_tool_document::{
    Document, Guard, Guarded, NamedPolicy, Policed, Refusal, read_guarded, read_policed,
};
use std::alloc::Global;

/// Which rows of a schema's tables are a tenant's.
#[derive(Drop)]
pub enum Tenant {
    /// Those of one table for which the condition is true.
    Guard(Table, Expr),
    /// Those of each table for which its conditions are true.
    Policies(SqlList<Policy>),
}

/// A document, and the tenant of its requests.
#[derive(Drop)]
pub struct TenantDocument {
    pub document: Document,
    pub tenant: Tenant,
}

/// The tenant that a guard names, its names looked up in the schema. None where the schema lacks one of them.
#[tactic(auto, unfolding(crate::specs::Tenants::tenant_of))]
fn tenant_named(alloc: Global, schema: &Schema, guard: &Guard) -> Result<Option<Tenant>, NoMemory>
    ensures { IfOk result (λ o. option_map tenant_tree o ≡ tenant_of schema.now (guard_tree guard.now)) }
{
    let Some(table) = schema.table(guard.table.as_str()) else {
        return Ok(None);
    };
    let Some(predicate) = expression(alloc, schema, Dialect::Pg, &guard.predicate)? else {
        return Ok(None);
    };
    let table = table.try_clone(alloc)?;
    Ok(Some(Tenant::Guard(table, predicate)))
}

#[tactic(auto, unfolding(crate::specs::Tenants::tenant_in))]
fn with_tenant(alloc: Global, guarded: Guarded) -> Result<TenantDocument, Refusal>
    ensures { Gives tenant_document_tree result (tenant_in (guarded_tree guarded)) }
{
    let Guarded { document, guard } = guarded;
    let tenant = tenant_named(alloc, &document.schema, &guard)?.ok_or(Refusal::NotADocument)?;
    Ok(TenantDocument { document, tenant })
}

/// The document with the tenant of its `"guard":{"table":"posts","predicate":EXPR}` that the bytes are, else `NotADocument`; or `NoMemory`.
#[tactic(auto, unfolding(crate::specs::Tenants::tenant_document))]
pub fn read_tenant(alloc: Global, bytes: &[u8]) -> Result<TenantDocument, Refusal>
    ensures { Gives tenant_document_tree result (tenant_document bytes.now) }
{
    let guarded = read_guarded(alloc, bytes)?;
    with_tenant(alloc, guarded)
}

/// The predicate that is written. None where it names what the schema lacks.
fn predicate_in(
    alloc: Global,
    schema: &Schema,
    predicate: &Option<sql_build_syntax::Expr>,
) -> Result<Option<Option<Expr>>, NoMemory>
    ensures { IfOk result (λ o. option_map (λ p. maybe_of (option_map expr_tree p)) o
        ≡ predicate_named schema.now (option_map written.expr_tree predicate.now)) }
{
    match predicate {
        None => Ok(Some(None)),
        Some(predicate) => match expression(alloc, schema, Dialect::Pg, predicate)? {
            None => Ok(None),
            Some(predicate) => Ok(Some(Some(predicate))),
        },
    }
}

#[tactic(auto, unfolding(crate::specs::Tenants::policy_named))]
fn policy_in(
    alloc: Global,
    schema: &Schema,
    named: &NamedPolicy,
) -> Result<Option<Policy>, NoMemory>
    ensures { IfOk result (λ o. option_map policy_tree o
        ≡ policy_named schema.now (named_policy_tree named.now)) }
{
    let Some(table) = schema.table(named.table.as_str()) else {
        return Ok(None);
    };
    let Some(predicate) = predicate_in(alloc, schema, &named.predicate)? else {
        return Ok(None);
    };
    let table = table.try_clone(alloc)?;
    Ok(Some(Policy { table, predicate }))
}

/// Returns the policies, their names looked up in the schema. None where it lacks one of them.
#[tactic(auto, using(sql_build::proofs::Front::fronts))]
pub fn policies_in(
    alloc: Global,
    schema: &Schema,
    named: &[NamedPolicy],
) -> Result<Option<Vec<Policy>>, NoMemory>
    ensures { IfOk result (λ o. option_map (λ v. map policy_tree v.items) o
        ≡ policies_named schema.now (map named_policy_tree named.now)) }
{
    let mut all = Vec::new(alloc);
    for policy in named {
        match policy_in(alloc, schema, policy)? {
            None => return Ok(None),
            Some(policy) => all.push(policy)?,
        }
    }
    Ok(Some(all))
}

#[tactic(auto, unfolding(crate::specs::Tenants::policed_in))]
fn with_policies(alloc: Global, policed: Policed) -> Result<TenantDocument, Refusal>
    ensures { Gives tenant_document_tree result (policed_in (policed_tree policed)) }
{
    let Policed { document, policies } = policed;
    let policies = policies_in(alloc, &document.schema, policies.as_slice())?;
    let policies = policies.ok_or(Refusal::NotADocument)?;
    let tenant = Tenant::Policies(SqlList::from(policies));
    Ok(TenantDocument { document, tenant })
}

/// The document with the policies of its `"tenant":[{"table":"posts","predicate":EXPR},{"table":"countries"}]` that the bytes are, else
/// `NotADocument`; or `NoMemory`.
#[tactic(auto, unfolding(crate::specs::Tenants::policed_document))]
pub fn read_policies(alloc: Global, bytes: &[u8]) -> Result<TenantDocument, Refusal>
    ensures { Gives tenant_document_tree result (policed_document bytes.now) }
{
    let policed = read_policed(alloc, bytes)?;
    with_policies(alloc, policed)
}
