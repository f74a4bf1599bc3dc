//! The line that the program writes for a request of a tenant: that of its statement, limited to the tenant's rows, or the name of its refusal.
//!
//! A predicate is built once, for PostgreSQL. The dialect tells only which box a call `into_boxed` without one gets; that call stands in a
//! subselect, and a predicate with a subselect is BadPredicate in every dialect.
//!
//! A call in a predicate's subselect that its form lacks makes the document BadDocument, as an unknown name there does, since there is no
//! expression. A request with such a call is UnknownName, as on `build`.
//!
//! A guarded statement may nest deeper than the one that was built, by a level for each predicate beside a leaf. Joins that are nested in
//! pairs have many leaves and few levels, so both are counted together: without that, 32,768 tables ended the program by a signal.
#![tactic(auto)]

mod line;
mod tenant;

pub use line::guarded_line;
pub use tenant::{Tenant, TenantDocument, policies_in, read_policies, read_tenant};
