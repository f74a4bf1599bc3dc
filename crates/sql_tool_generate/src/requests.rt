ghost use Rattle.std.specs.Prelude.{◌≡◌, ◌+◌, ℕ, List, length, IfOk, OnOk, Some, option_map, string_bytes};
ghost use Rattle.sql_check.specs.Errors.{rule_of};
ghost use Rattle.sql_rules.specs.Texts.{rule_text};
ghost use Rattle.sql_rules.specs.declared.rule.Rule.{Rule};
ghost use Rattle.sql_tool_build.specs.inside.Keys.{HasLine, IsKept, id_found, keyed, seen_at};
ghost use Rattle.sql_tool_generate.specs.Counts.{is_own as is_own_number};
ghost use Rattle.sql_tool_generate.specs.Generated.{request};
ghost use Rattle.sql_tool_series.specs.Schema.{declarations};
ghost use Rattle.sql_tool_generate.specs.Summary.{IsSummary};
ghost use Rattle.sql_tool_series.specs.inside.LookedUp.{AreNamed};
ghost use Rattle.sql_tool_generate.specs.inside.Counting.{IsWithRefused, TellMore, with_accepted};

use crate::counts::Counts;
use crate::summary::summary_line;
use sql_check::{Built, CompileError};
use sql_dialect::Dialect;
use sql_key::QueryKey;
use sql_schema::NoMemory;
use sql_tool_build::{
    NamedRequest, Names, StatementCache, compile_cached_for, request_id, schema_stands,
};
use sql_tool_series::{Named, dialect_of, form_of, series_schema};
use std::alloc::{AllocError, Global};
use std::collections::BTreeMap;
use std::num::NonZeroUsize;

/// How many answers are kept: one for each form and dialect.
const ENTRIES: usize = 24;

/// Whether a request's id is its own number, so that it is the first with this id.
fn is_own(number: u64, id: Option<u64>) -> bool
    ensures { result ≡ is_own_number number id }
{
    match id {
        None => false,
        Some(first) => first == number,
    }
}

/// The key of an answer whose other parts are done with.
fn key_of(built: Built) -> Option<QueryKey>
    ensures { result ≡ built.id }
{
    built.id
}

fn accept(
    dialect: Dialect,
    seen: &mut BTreeMap<NamedRequest, u64>,
    counts: &mut Counts,
    number: u64,
    built: Built,
) -> Result<(), AllocError>
    ensures counted { OnOk result (counts.new
        ≡ with_accepted (length built.binds) (length built.sql)
        (is_own_number number
        (id_found (seen_at seen.old) number (option_map (keyed dialect) built.id)))
        counts.old) }
    ensures kept { OnOk result (IsKept (seen_at seen.old) (seen_at seen.new) number
        (option_map (keyed dialect) built.id)) }
{
    let values = built.binds.as_slice().len();
    let bytes = built.sql.as_str().len();
    let id = request_id(seen, dialect, key_of(built), number)?;
    counts.accept(values, bytes, is_own(number, id));
    Ok(())
}

fn refuse(alloc: Global, counts: &mut Counts, error: CompileError) -> Result<(), AllocError>
    ensures { OnOk result ((rule : Rule) × (rule_of error ≡ Some rule)
        × IsWithRefused (rule_text rule) counts.old counts.new) }
{
    match error.rule() {
        Some(rule) => counts.refuse(alloc, rule),
        None => Err(AllocError),
    }
}

/// Counts what becomes of the request of this number, where `seen` has the keys of those before it.
fn count(
    alloc: Global,
    named: &Named,
    cache: &mut StatementCache,
    seen: &mut BTreeMap<NamedRequest, u64>,
    counts: &mut Counts,
    number: u32,
) -> Result<(), AllocError>
    requires named { AreNamed named.now }
    requires schema { cache.now.schema ≡ declarations }
    ensures line { OnOk result (HasLine declarations (request number) (number + 1)
        (seen_at seen.old) (seen_at seen.new) (TellMore (number + 1) counts.old counts.new)) }
    ensures schema { cache.new.schema ≡ cache.old.schema }
{
    schema_stands(cache);
    let dialect = dialect_of(number);
    let statement = named.statement(alloc, form_of(number), dialect, number)?;
    match compile_cached_for(alloc, dialect, Names::Asked, cache, &statement) {
        Ok(built) => accept(dialect, seen, counts, u64::from(number) + 1, built),
        Err(error) => refuse(alloc, counts, error),
    }
}

/// The line that sums up what becomes of the first generated requests, so many, with a newline:
/// `{"accepted":19,"binds":13,"bytes":1853,"ids":13,"refused":{"NeedsNullable":3,"Unsupported":2},"requests":24}`. They are compiled through
/// a cache, as those of a document are.
pub fn generate(alloc: Global, requests: u32) -> Result<String, NoMemory>
    ensures { IfOk result (λ text. IsSummary requests (string_bytes text)) }
{
    let named = Named::new(alloc)?;
    let capacity = NonZeroUsize::new(ENTRIES).unwrap();
    let mut cache = StatementCache::new(alloc, series_schema(alloc)?, capacity)?;
    let mut seen: BTreeMap<NamedRequest, u64> = BTreeMap::new(alloc);
    let mut counts = Counts::new(alloc);
    for number in 0..requests {
        count(alloc, &named, &mut cache, &mut seen, &mut counts, number)?;
    }
    summary_line(alloc, &counts)
}

/// So many generated requests have at most one line that sums them up.
pub fn one_summary()
    ensures { (n : ℕ) (a b : List ℕ) → IsSummary n a → IsSummary n b → a ≡ b }
{}
