ghost use Rattle.std.specs.Prelude.{◌≡◌, [], ◌∷◌, ◌++◌, IfOk, IfErr, OnOk, None, Some, option_map, string_bytes};
ghost use Rattle.serde_json.specs.Written.{compact_text};
ghost use Rattle.sql_schema.specs.Refusals.{least_refusal};
ghost use Rattle.sql_check.specs.Compiled.{Compiles};
ghost use Rattle.sql_check.specs.Errors.{rule_of};
ghost use Rattle.sql_tool_document.specs.Trees.{request_tree};
ghost use Rattle.sql_node.specs.View.{statement_tree};
ghost use Rattle.sql_rows.specs.Entries.{IsNext};
ghost use Rattle.sql_rules_check.specs.declared.names.Names.TheVariants as name;
ghost use Rattle.sql_rules.specs.Rules.{Broken};
ghost use Rattle.sql_rules.specs.Texts.{rule_text};
ghost use Rattle.sql_rules.specs.declared.rule.Rule.{Rule};
ghost use Rattle.sql_rules.specs.declared.rule.Rule.TheVariants.{UnknownName};
ghost use Rattle.sql_tool_build.specs.Judgement.{made};
ghost use Rattle.sql_tool_build.specs.Objects.{refused as refused_data, statement_data};
ghost use Rattle.sql_tool_build.specs.Output.{line_text, statement_request};
ghost use Rattle.sql_tool_build.specs.inside.Keys.{keyed, id_found, seen_at, IsKept, HasLine};

use crate::known::request_id;
use crate::object::{accepted_line, refusal_line};
use sql_build::statement;
use sql_build_law::built_statements_know_their_names;
use sql_check::{Built, CompileError, Rule};
use sql_dialect::{Bracket, Dialect, Mysql, Pg, Sqlite};
use sql_node::Statement;
use sql_rows::{NamedRequest, Names, StatementCache};
use sql_tool_document::Request;
use std::alloc::{AllocError, Global};
use std::collections::BTreeMap;

/// No refusal holds of a cache's schema. Does nothing when it runs.
pub fn schema_stands(cache: &StatementCache)
    ensures { least_refusal cache.now.schema ≡ None }
{
    let _tables = cache.schema().tables();
}

/// `compile_cached_by` for a dialect that is known when the program runs.
pub fn compile_cached_for(
    alloc: Global,
    dialect: Dialect,
    names: Names,
    cache: &mut StatementCache,
    statement: &Statement,
) -> Result<Built, CompileError>
    requires { names ≡ name.Known
        → ¬ Broken UnknownName cache.old.schema dialect (statement_tree statement.now) }
    ensures compiled { Compiles cache.old.schema dialect (statement_tree statement.now) result }
    ensures schema { cache.new.schema ≡ cache.old.schema }
    ensures entries { IsNext dialect (statement_tree statement.now) cache.old result cache.new }
{
    match dialect {
        Dialect::Pg => cache.compile_cached_by(alloc, names, &Pg, statement),
        Dialect::Mysql => cache.compile_cached_by(alloc, names, &Mysql, statement),
        Dialect::Sqlite => cache.compile_cached_by(alloc, names, &Sqlite, statement),
        Dialect::Bracket => cache.compile_cached_by(alloc, names, &Bracket, statement),
    }
}

/// The line of a request whose statement is accepted.
fn accept(
    alloc: Global,
    dialect: Dialect,
    seen: &mut BTreeMap<NamedRequest, u64>,
    number: u64,
    built: Built,
) -> Result<String, AllocError>
    ensures line { IfOk result (λ text. string_bytes text ≡ compact_text
        (statement_data built.binds built.sql_types
        (id_found (seen_at seen.old) number (option_map (keyed dialect) built.id))
        built.safe built.sql)
        ++ 10 ∷ []) }
    ensures kept { OnOk result (IsKept (seen_at seen.old) (seen_at seen.new) number
        (option_map (keyed dialect) built.id)) }
{
    let Built {
        sql,
        binds,
        sql_types,
        safe,
        id: key,
    } = built;
    let id = request_id(seen, dialect, key, number)?;
    accepted_line(
        alloc,
        binds.as_slice(),
        sql_types.as_slice(),
        id,
        safe,
        sql.as_str(),
    )
}

/// The line of a request whose statement is not compiled.
fn refuse(alloc: Global, error: CompileError) -> Result<String, AllocError>
    ensures { IfOk result (λ text. (rule : Rule) × (rule_of error ≡ Some rule)
        × (string_bytes text ≡ compact_text (refused_data (rule_text rule)) ++ 10 ∷ [])) }
{
    match error.rule() {
        Some(rule) => refusal_line(alloc, rule.name()),
        None => Err(AllocError),
    }
}

/// The line of a statement, as that of the request with this number, where `seen` has the keys of those before it. What the cache holds
/// changes no line.
pub fn statement_line(
    alloc: Global,
    cache: &mut StatementCache,
    seen: &mut BTreeMap<NamedRequest, u64>,
    number: u64,
    dialect: Dialect,
    names: Names,
    statement: &Statement,
) -> Result<String, AllocError>
    requires { names ≡ name.Known
        → ¬ Broken UnknownName cache.old.schema dialect (statement_tree statement.now) }
    ensures line { IfOk result (λ text. HasLine cache.old.schema
        (record { dialect = dialect; statement = made (statement_tree statement.now) })
        number (seen_at seen.old) (seen_at seen.new)
        (λ l. string_bytes text ≡ line_text l)) }
    ensures schema { cache.new.schema ≡ cache.old.schema }
{
    schema_stands(cache);
    match compile_cached_for(alloc, dialect, names, cache, statement) {
        Ok(built) => accept(alloc, dialect, seen, number, built),
        Err(error) => refuse(alloc, error),
    }
}

/// The line of the request with this number, where `seen` has the keys of those before it. What the cache holds changes no line.
pub fn request_line(
    alloc: Global,
    cache: &mut StatementCache,
    seen: &mut BTreeMap<NamedRequest, u64>,
    number: u64,
    request: &Request,
) -> Result<String, AllocError>
    ensures line { IfOk result (λ text. HasLine cache.old.schema
        (statement_request cache.old.schema (request_tree request.now))
        number (seen_at seen.old) (seen_at seen.new)
        (λ l. string_bytes text ≡ line_text l)) }
    ensures schema { cache.new.schema ≡ cache.old.schema }
{
    schema_stands(cache);
    match statement(alloc, cache.schema(), request.dialect, &request.query)? {
        None => refusal_line(alloc, Rule::UnknownName.name()),
        Some(statement) => {
            built_statements_know_their_names();
            let names = Names::Known;
            statement_line(
                alloc,
                cache,
                seen,
                number,
                request.dialect,
                names,
                &statement,
            )
        }
    }
}
