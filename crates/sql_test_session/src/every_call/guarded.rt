//! A tenant's requests.

use crate::examples::{GUARD, GUARDED};
use sql_build::expression;
use sql_dialect::{Backend, Dialect, Pg, QueryBuilder};
use sql_pass::QueryFragment;
use sql_schema::Schema;
use sql_test_kit::{is, reads};
use sql_tool_build::{NamedRequest, StatementCache};
use sql_tool_document::{Document, Refusal, Request, read_guarded, read_policed};
use sql_tool_guard::{Tenant, TenantDocument, guarded_line, read_policies, read_tenant};
use std::alloc::Global;
use std::collections::BTreeMap;
use std::num::NonZeroUsize;
use std::test::Fail;

/// The document `GUARD` by a policy.
const POLICED: &str =
    r#"{"schema":{"tables":[{"name":"posts","columns":[{"name":"id","type":"Integer"},{"name":"user_id","type":"Integer"},{"name":"title","type":"Text"}]}]},"tenant":[{"table":"posts","predicate":{"eq":[{"col":["posts","user_id"]},{"bind":["Integer",7]}]}}],"requests":[{"dialect":"Sqlite","query":{"from":{"alias":"p","of":"posts"},"calls":[["select",{"field":["p","posts","title"]}]]}}]}"#;

pub(crate) fn every_call(alloc: Global) -> Result<(), Fail> {
    predicate(alloc)?;
    of_document(alloc, read_tenant(alloc, GUARD.as_bytes()))?;
    policies(alloc)?;
    of_document(alloc, read_policies(alloc, POLICED.as_bytes()))
}

fn policies(alloc: Global) -> Result<(), Fail> {
    let policed = read_policed(alloc, POLICED.as_bytes())?;
    let count = policed.policies.as_slice().len();
    drop(policed);
    is(count == 1, "a policy")
}

fn predicate(alloc: Global) -> Result<(), Fail> {
    let guarded = read_guarded(alloc, GUARD.as_bytes())?;
    let schema = &guarded.document.schema;
    let made = expression(alloc, schema, Dialect::Pg, &guarded.guard.predicate);
    drop(guarded);
    let made = made?;
    let written = made.to_sql(Pg.query_builder(alloc), &Pg);
    drop(made);
    reads(written?.finish(), "(\"posts\".\"user_id\" = $1)")
}

fn of_document(alloc: Global, read: Result<TenantDocument, Refusal>) -> Result<(), Fail> {
    let TenantDocument { document, tenant } = read?;
    let Document { schema, requests } = document;
    let told = match requests.as_slice().first() {
        Some(request) => of_request(alloc, schema, &tenant, request),
        None => is(false, "a request"),
    };
    drop(requests);
    drop(tenant);
    told
}

fn of_request(
    alloc: Global,
    schema: Schema,
    tenant: &Tenant,
    request: &Request,
) -> Result<(), Fail> {
    let mut cache = StatementCache::new(alloc, schema, NonZeroUsize::MIN)?;
    let mut seen: BTreeMap<NamedRequest, u64> = BTreeMap::new(alloc);
    let line = guarded_line(alloc, &mut cache, &mut seen, 1, tenant, request)?;
    is(line.as_str() == GUARDED, "the tenant's line")
}
