ghost use Rattle.std.specs.Prelude.{◌≡◌, ◌⊎◌, ◌∷◌, ◌++◌, ◌<◌, ◌≤◌, ◌+◌, List, ℕ, [], Some, None, IfOk, IfErr, IsErrOf, OnOk, length, map, option_map, string_bytes};
ghost use Rattle.sql_schema.specs.Declarations.{Declarations};
ghost use Rattle.sql_tool_run.specs.Limits.{greatest_input};
ghost use Rattle.sql_tool_run.specs.declared.status.Status.{Status};
ghost use Rattle.sql_tool_document.specs.Trees.{named_policy_tree, request_tree};
ghost use Rattle.sql_tool_build.specs.Output.{StatementRequest, line_text};
ghost use Rattle.sql_tool_build.specs.inside.Keys.{HasLine, seen_at};
ghost use Rattle.sql_tool_guard.specs.Trees.{tenant_tree};
ghost use Rattle.sql_tool_session.specs.Session.{Asked, Asking as AskingTree, HasAnswered, IsMade, IsOpenedBy, asked_by, asked_for, capacity_of, opened_by, opening_status, template_of, tenant_in};

use crate::capacity::Capacity;
use sql_schema::{Schema, SqlList};
use sql_tool_build::{NamedRequest, StatementCache, request_line};
use sql_tool_document::{
    Call, Document, NamedPolicy, Opening, Refusal, Request, Template, read_call, read_opening,
};
use sql_tool_guard::{Tenant, guarded_line, policies_in};
use sql_tool_ids::keep_within;
use sql_tool_run::{LIMIT, Status};
use std::alloc::{AllocError, Global};
use std::collections::BTreeMap;
use std::num::NonZeroUsize;

/// How many answers are kept for requests of the same dialect and shape.
const ENTRIES: usize = 256;

/// What a session is opened with, and keeps.
#[derive(Drop)]
pub(crate) struct Terms {
    /// The policies, with their places for a tenant's values, where it has any.
    pub(crate) template: Option<Template>,
    pub(crate) capacity: Capacity,
}

/// One schema, and what is known of the requests over it so far: what was compiled for them, and their ids. A session that was opened
/// with policies keeps them, with their places for a tenant's values.
#[derive(Drop)]
pub struct Session {
    cache: StatementCache,
    seen: BTreeMap<NamedRequest, u64>,
    count: u64,
    terms: Terms,
}

/// Requests, and the tenant whose rows they see, where the session has policies.
#[derive(Drop)]
pub(crate) struct Asking {
    pub(crate) tenant: Option<Tenant>,
    pub(crate) requests: SqlList<Request>,
}

/// The number after this one. After 2^64 - 1 there is none.
fn following(number: u64) -> Result<u64, AllocError>
    ensures { IfOk result (λ next. next ≡ number + 1) }
{
    number.checked_add(1).ok_or(AllocError)
}

/// The line of the request with this number, for its tenant where there is one.
fn line_for(
    alloc: Global,
    cache: &mut StatementCache,
    seen: &mut BTreeMap<NamedRequest, u64>,
    number: u64,
    tenant: &Option<Tenant>,
    request: &Request,
) -> Result<String, AllocError>
    ensures line { IfOk result (λ text. (r : StatementRequest)
        × IsMade cache.old.schema (option_map tenant_tree tenant.now) (request_tree request.now) r
        × HasLine cache.old.schema r number (seen_at seen.old) (seen_at seen.new)
        (λ l. string_bytes text ≡ line_text l)) }
    ensures schema { cache.new.schema ≡ cache.old.schema }
{
    match tenant {
        None => request_line(alloc, cache, seen, number, request),
        Some(tenant) => guarded_line(alloc, cache, seen, number, tenant, request),
    }
}

/// The tenant by its policies, their names looked up in the schema, where there are policies; `BadDocument` where the schema lacks a
/// name.
fn tenant_named(
    alloc: Global,
    schema: &Schema,
    policies: Option<SqlList<NamedPolicy>>,
) -> Result<Option<Tenant>, Status>
    ensures found { IfOk result (λ tenant. tenant_in schema.now
        (option_map (λ qs. map named_policy_tree qs) policies) ≡ Some (option_map tenant_tree tenant)) }
    ensures refused { IfErr result (λ status. (status ≡ Status.NoMemory)
        ⊎ ((status ≡ Status.BadDocument) × (tenant_in schema.now
        (option_map (λ qs. map named_policy_tree qs) policies) ≡ None))) }
{
    let Some(policies) = policies else {
        return Ok(None);
    };
    match policies_in(alloc, schema, policies.as_slice()) {
        Ok(Some(policies)) => Ok(Some(Tenant::Policies(SqlList::from(policies)))),
        Ok(None) => Err(Status::BadDocument),
        Err(AllocError) => Err(Status::NoMemory),
    }
}

impl Session {
    /// A session over this schema, on these terms, that has answered nothing.
    fn new(alloc: Global, schema: Schema, terms: Terms) -> Result<Session, AllocError>
        ensures { IfOk result (λ session. HasAnswered schema [] [] session
            × (session.terms ≡ terms)) }
    {
        let capacity = NonZeroUsize::new(ENTRIES).unwrap();
        Ok(Session {
            cache: StatementCache::new(alloc, schema, capacity)?,
            seen: BTreeMap::new(alloc),
            count: 0,
            terms,
        })
    }

    /// The line of one more request. Once as many shapes have an id as may, all are forgotten.
    fn line(
        &mut self,
        alloc: Global,
        tenant: &Option<Tenant>,
        request: &Request,
    ) -> Result<String, AllocError>
        ensures line { IfOk result (λ line. (schema : Declarations) (asked : List Asked) (text : List ℕ)
            → HasAnswered schema asked text self.old
            → HasAnswered schema (asked ++ asked_for (option_map tenant_tree tenant.now)
            (request_tree request.now ∷ [])) (text ++ string_bytes line) self.new) }
        ensures terms { self.new.terms ≡ self.old.terms }
    {
        let number = following(self.count)?;
        let line = line_for(
            alloc,
            &mut self.cache,
            &mut self.seen,
            number,
            tenant,
            request,
        )?;
        self.count = number;
        keep_within(&mut self.seen, self.terms.capacity.shapes());
        Ok(line)
    }

    /// The lines of these requests, in order.
    fn lines(
        &mut self,
        alloc: Global,
        tenant: &Option<Tenant>,
        requests: &[Request],
    ) -> Result<Vec<u8>, AllocError>
        ensures lines { IfOk result (λ lines. (schema : Declarations) (asked : List Asked) (text : List ℕ)
            → HasAnswered schema asked text self.old
            → HasAnswered schema (asked ++ asked_for (option_map tenant_tree tenant.now)
            (map request_tree requests.now)) (text ++ lines.items) self.new) }
        ensures terms { self.new.terms ≡ self.old.terms }
    {
        let mut lines = Vec::new(alloc);
        for request in requests {
            let line = self.line(alloc, tenant, request)?;
            lines.extend_from_slice(line.as_bytes())?;
        }
        Ok(lines)
    }

    /// The lines of these requests, in order, for this tenant, as they are in the output of one document that has the requests of all
    /// calls so far: each id is the number of the session's first request of that dialect and shape, since all were forgotten. Where memory
    /// runs out the session is given up, since it may know of requests whose lines are lost.
    pub(crate) fn answer(
        self,
        alloc: Global,
        tenant: &Option<Tenant>,
        requests: &[Request],
    ) -> Result<(Session, Vec<u8>), AllocError>
        // To what was answered before, these requests and lines are added.
        ensures answered { IfOk result (λ more. (schema : Declarations) (asked : List Asked)
            (text : List ℕ) → HasAnswered schema asked text self
            → HasAnswered schema (asked ++ asked_for (option_map tenant_tree tenant.now)
            (map request_tree requests.now)) (text ++ more.1.items) more.0) }
        ensures terms { IfOk result (λ more. more.0.terms ≡ self.terms) }
    {
        let mut session = self;
        let lines = session.lines(alloc, tenant, requests);
        match lines {
            Ok(lines) => Ok((session, lines)),
            Err(error) => Err(error),
        }
    }

    /// Begins anew over the same schema, on the same terms: it has answered nothing, and ids are counted from 1 again. What was compiled is
    /// kept, since no answer depends on it.
    pub(crate) fn reset(&mut self)
        ensures anew { (schema : Declarations) (asked : List Asked) (text : List ℕ)
            → HasAnswered schema asked text self.old → HasAnswered schema [] [] self.new }
        ensures terms { self.new.terms ≡ self.old.terms }
    {
        keep_within(&mut self.seen, 0);
        self.count = 0;
    }

    /// The schema that statements are compiled for.
    pub(crate) fn schema(&self) -> &Schema
        ensures { result.now ≡ self.now.cache.schema }
    {
        self.cache.schema()
    }

    /// A session over the schema of the document that the bytes are, with its policies and this capacity, which has answered nothing, and
    /// what the document asks; or the status with which the opening ends.
    #[tactic(auto, using(crate::proofs::Asking::opened_is, crate::proofs::Asking::opened_lost, crate::proofs::Asking::opened_none))]
    pub(crate) fn begin(
        alloc: Global,
        capacity: Capacity,
        bytes: &[u8],
    ) -> Result<(Session, Asking), Status>
        ensures begun { IfOk result (λ first. (a : AskingTree)
            × (opened_by bytes.now ≡ Some a) × (a.document.requests ≡ map request_tree first.1.requests)
            × (a.tenant ≡ option_map tenant_tree first.1.tenant)
            × IsOpenedBy first.0 capacity.shapes bytes.now
            × HasAnswered a.document.schema [] [] first.0) }
        ensures too_large { greatest_input < length bytes.now → IsErrOf result Status.TooLarge }
        ensures done { OnOk result (opening_status bytes.now ≡ Status.Done) }
        ensures refused { IfErr result (λ status. (status ≡ Status.Done → ⊥)
            × ((status ≡ Status.NoMemory) ⊎ (status ≡ opening_status bytes.now))) }
    {
        if bytes.len() > LIMIT {
            return Err(Status::TooLarge);
        }
        let Opening { call, template } = match read_opening(alloc, bytes) {
            Ok(opening) => opening,
            Err(Refusal::NoMemory) => return Err(Status::NoMemory),
            Err(Refusal::NotADocument) => return Err(Status::BadDocument),
        };
        let Call { document, policies } = call;
        let Document { schema, requests } = document;
        let tenant = tenant_named(alloc, &schema, policies)?;
        let terms = Terms { template, capacity };
        match Session::new(alloc, schema, terms) {
            Ok(session) => Ok((session, Asking { tenant, requests })),
            Err(AllocError) => Err(Status::NoMemory),
        }
    }

    /// What is asked by the document that the bytes are, which declares no table, since the session has its own; or `TooLarge` for more
    /// than `LIMIT` bytes, or `BadDocument`.
    #[tactic(auto, using(crate::proofs::Asking::asked_is, crate::proofs::Asking::asked_document, crate::proofs::Asking::asked_lost, crate::proofs::Asking::asked_none))]
    pub(crate) fn asking(&self, alloc: Global, bytes: &[u8]) -> Result<Asking, Status>
        ensures read { IfOk result (λ asking. (a : AskingTree)
            × (asked_by self.now bytes.now ≡ Some a) × (length a.document.schema.tables ≡ 0)
            × (a.document.requests ≡ map request_tree asking.requests)
            × (a.tenant ≡ option_map tenant_tree asking.tenant)) }
        ensures too_large { greatest_input < length bytes.now → IsErrOf result Status.TooLarge }
        ensures refused { IfErr result (λ status. (status ≡ Status.NoMemory)
            ⊎ (((status ≡ Status.TooLarge) × (greatest_input < length bytes.now))
            ⊎ ((status ≡ Status.BadDocument) × (length bytes.now ≤ greatest_input)
            × ((a : AskingTree) → asked_by self.now bytes.now ≡ Some a
            → 0 < length a.document.schema.tables)))) }
    {
        if bytes.len() > LIMIT {
            return Err(Status::TooLarge);
        }
        let Call { document, policies } = match read_call(alloc, &self.terms.template, bytes) {
            Ok(call) => call,
            Err(Refusal::NoMemory) => return Err(Status::NoMemory),
            Err(Refusal::NotADocument) => return Err(Status::BadDocument),
        };
        let Document { schema, requests } = document;
        if schema.tables().len() > 0 {
            return Err(Status::BadDocument);
        }
        let tenant = tenant_named(alloc, self.cache.schema(), policies)?;
        Ok(Asking { tenant, requests })
    }
}
