ghost use Rattle.std.specs.Prelude.{◌≡◌, IfErr, IfOk, Some, option_map, string_bytes};
ghost use Rattle.sql_node.specs.View.{statement_tree};
ghost use Rattle.sql_build.specs.Built.{statement_in};
ghost use Rattle.sql_build_syntax.specs.View.{query_tree};
ghost use Rattle.sql_tool_document.specs.Trees.{request_tree};
ghost use Rattle.sql_tool_build.specs.Judgement.{Made};
ghost use Rattle.sql_tool_build.specs.Output.{StatementRequest, line_text};
ghost use Rattle.sql_tool_build.specs.inside.Keys.{HasLine, seen_at};
ghost use Rattle.sql_tool_guard.specs.Output.{IsFirstRefusal, IsGuarded, IsRestricted, MayLimit, limited_to, refusal_text};
ghost use Rattle.sql_tool_guard.specs.Trees.{tenant_tree};

use crate::tenant::Tenant;
use sql_build::{statement, statement_to_restrict};
use sql_build_depth::is_too_deep_with;
use sql_build_syntax::Query;
use sql_check::Rule;
use sql_dialect::Dialect;
use sql_guard::{Policy, RestrictError, count_predicates, restrict, restrict_all};
use sql_node::Statement;
use sql_schema::{NoMemory, Schema};
use sql_tool_build::{
    NamedRequest, Names, StatementCache, refusal_line, schema_stands, statement_line,
};
use sql_tool_document::Request;
use std::alloc::{AllocError, Global};
use std::collections::BTreeMap;

/// The name of a refusal.
fn refusal_name(error: RestrictError) -> &'static str
    ensures { result.now ≡ refusal_text error }
{
    match error {
        RestrictError::BadPredicate => "BadPredicate",
        RestrictError::OutOfKind => "OutOfKind",
        RestrictError::NoRelation => "NoRelation",
        RestrictError::LacksPolicy => "LacksPolicy",
        RestrictError::NoMemory => "NoMemory",
    }
}

/// The statement, limited to the tenant's rows.
fn limit(alloc: Global, statement: &Statement, tenant: &Tenant) -> Result<Statement, RestrictError>
    ensures limited { IfOk result (λ r. statement_tree r
        ≡ limited_to (tenant_tree tenant.now) (statement_tree statement.now)) }
    ensures kind { IfOk result (λ r. MayLimit (tenant_tree tenant.now)
        (statement_tree statement.now)) }
    ensures refused { IfErr result (λ e. IsFirstRefusal e (tenant_tree tenant.now)
        (statement_tree statement.now)) }
{
    match tenant {
        Tenant::Guard(table, predicate) => restrict(alloc, statement, table, predicate),
        Tenant::Policies(policies) => restrict_all(alloc, statement, policies.as_slice()),
    }
}

/// The line of a statement, limited to the tenant's rows.
fn limited_line(
    alloc: Global,
    cache: &mut StatementCache,
    seen: &mut BTreeMap<NamedRequest, u64>,
    number: u64,
    tenant: &Tenant,
    dialect: Dialect,
    statement: &Statement,
) -> Result<String, AllocError>
    ensures line { IfOk result (λ text. (m : Made)
        × IsRestricted (tenant_tree tenant.now) (Some (statement_tree statement.now)) m
        × HasLine cache.old.schema (record { dialect = dialect; statement = m })
        number (seen_at seen.old) (seen_at seen.new) (λ l. string_bytes text ≡ line_text l)) }
    ensures schema { cache.new.schema ≡ cache.old.schema }
{
    schema_stands(cache);
    match limit(alloc, statement, tenant) {
        Ok(limited) => statement_line(alloc, cache, seen, number, dialect, Names::Asked, &limited),
        Err(RestrictError::NoMemory) => Err(AllocError),
        Err(error) => refusal_line(alloc, refusal_name(error)),
    }
}

/// Whether the predicates may make the statement nest too deep, or there is no memory to tell.
fn is_too_deep(
    alloc: Global,
    policies: &[Policy],
    query: &Query,
    built: &Option<Statement>,
) -> bool {
    match built {
        None => false,
        Some(statement) => match count_predicates(alloc, policies, statement) {
            Ok(count) => is_too_deep_with(query, count),
            Err(AllocError) => true,
        },
    }
}

/// The statement that the query stands for, which these policies are to guard. One that they may make deeper than `MAX_DEPTH` is NoMemory.
fn statement_to_guard(
    alloc: Global,
    schema: &Schema,
    policies: &[Policy],
    dialect: Dialect,
    query: &Query,
) -> Result<Option<Statement>, NoMemory>
    ensures { IfOk result (λ o. option_map statement_tree o
        ≡ statement_in schema.now dialect (query_tree query.now)) }
{
    let built = statement(alloc, schema, dialect, query)?;
    if is_too_deep(alloc, policies, query, &built) {
        drop(built);
        return Err(AllocError);
    }
    Ok(built)
}

/// The statement that the query stands for, to be limited to the tenant's rows.
fn statement_to_limit(
    alloc: Global,
    schema: &Schema,
    tenant: &Tenant,
    dialect: Dialect,
    query: &Query,
) -> Result<Option<Statement>, NoMemory>
    ensures { IfOk result (λ o. option_map statement_tree o
        ≡ statement_in schema.now dialect (query_tree query.now)) }
{
    match tenant {
        Tenant::Guard(_, _) => statement_to_restrict(alloc, schema, dialect, query),
        Tenant::Policies(policies) => {
            statement_to_guard(alloc, schema, policies.as_slice(), dialect, query)
        }
    }
}

/// The line of the request with this number, its statement limited to the tenant's rows, where `seen` has the keys of those before it: as
/// `build` has it, or `{"refused":"LacksPolicy"}` with the first refusal of `restrict` or `restrict_all` that holds. What the cache holds changes no line.
pub fn guarded_line(
    alloc: Global,
    cache: &mut StatementCache,
    seen: &mut BTreeMap<NamedRequest, u64>,
    number: u64,
    tenant: &Tenant,
    request: &Request,
) -> Result<String, AllocError>
    ensures line { IfOk result (λ text. (r : StatementRequest)
        × IsGuarded cache.old.schema (tenant_tree tenant.now) (request_tree request.now) r
        × HasLine cache.old.schema r number (seen_at seen.old) (seen_at seen.new)
        (λ l. string_bytes text ≡ line_text l)) }
    ensures schema { cache.new.schema ≡ cache.old.schema }
{
    schema_stands(cache);
    match statement_to_limit(
        alloc,
        cache.schema(),
        tenant,
        request.dialect,
        &request.query,
    )? {
        None => refusal_line(alloc, Rule::UnknownName.name()),
        Some(statement) => {
            limited_line(
                alloc,
                cache,
                seen,
                number,
                tenant,
                request.dialect,
                &statement,
            )
        }
    }
}
