ghost use Rattle.std.specs.Prelude.{◌≡◌, ◌⊎◌, None, Some, IfOk, IfErr};
ghost use Rattle.sql_grammar.specs.Reading.{OnlyReading};
ghost use Rattle.sql_read.specs.Seen.{HasNoReading, tree_of};
ghost use Rattle.sql_read_tree.specs.View.{query_tree};
ghost use Rattle.sql_audit.specs.Report.{IsRefused, IsReported, IsReport, AreSettled, least_refusal, settled_refusal};
ghost use Rattle.sql_audit.specs.declared.error.AuditError.TheVariants as error;

use crate::error::AuditError;
use crate::report::AuditReport;
use crate::settled::{any_nothing, any_several, any_unknown, columns, known_tables};
use sql_audit_resolution::{Resolution, resolve};
use sql_dialect::Dialect;
use sql_read::{ReadError, Tree, read};
use sql_read_tree::Query;
use sql_schema::{NoMemory, Schema, SqlList};
use std::alloc::Global;

fn read_text(alloc: Global, dialect: Dialect, text: &str) -> Result<Tree, AuditError>
    ensures reading { IfOk result (λ tree. OnlyReading dialect text.now (tree_of tree)) }
    ensures refused { IfErr result (λ e. (e ≡ error.NoMemory)
        ⊎ ((e ≡ error.NotInGrammar) × HasNoReading dialect text.now)) }
{
    match read(alloc, dialect, text) {
        Ok(tree) => Ok(tree),
        Err(ReadError::NotInGrammar) => Err(AuditError::NotInGrammar),
        Err(ReadError::NoMemory) => Err(AuditError::NoMemory),
    }
}

fn refusal(resolution: &Resolution) -> Option<AuditError>
    ensures { result
        ≡ settled_refusal resolution.now.tables.items resolution.now.meanings.items }
{
    if any_unknown(&resolution.tables) {
        return Some(AuditError::UnknownTable);
    }
    if any_nothing(&resolution.meanings) {
        return Some(AuditError::NotInScope);
    }
    if any_several(&resolution.meanings) {
        return Some(AuditError::Ambiguous);
    }
    None
}

fn settled(alloc: Global, resolution: Resolution) -> Result<AuditReport, NoMemory>
    requires { settled_refusal resolution.tables.items resolution.meanings.items ≡ None }
    ensures { IfOk result (λ r. AreSettled resolution.tables.items resolution.meanings.items r) }
{
    let Resolution { tables, meanings } = resolution;
    let tables = known_tables(alloc, tables)?;
    let uses = columns(alloc, meanings)?;
    Ok(AuditReport {
        tables: SqlList::from(tables),
        uses: SqlList::from(uses),
    })
}

/// The report of a statement, or the first refusal that holds of it.
fn report(alloc: Global, schema: &Schema, query: &Query) -> Result<AuditReport, AuditError>
    ensures ok { IfOk result (IsReport schema.now.tables (query_tree query.now)) }
    ensures none { IfOk result
        (λ r. least_refusal schema.now.tables (query_tree query.now) ≡ None) }
    ensures refused { IfErr result (λ e. (e ≡ error.NoMemory)
        ⊎ (least_refusal schema.now.tables (query_tree query.now) ≡ Some e)) }
{
    let resolution = resolve(alloc, schema, query)?;
    if let Some(error) = refusal(&resolution) {
        return Err(error);
    }
    Ok(settled(alloc, resolution)?)
}

/// Which tables and columns of the schema a text uses: one table for each leaf and one use for each column path, in the order of
/// the text. A leaf is a table or an alias in a FROM.
///
/// It takes time in the text's length times the depth of its brackets, and for each path in the number of leaves that are sought.
/// `NoMemory` may stand in place of any answer, and does where all brackets are closed and they nest deeper than `sql_read::MAX_DEPTH`.
pub fn audit(
    alloc: Global,
    dialect: Dialect,
    schema: &Schema,
    text: &str,
) -> Result<AuditReport, AuditError>
    // Ok is the report of the text's only reading, of which no refusal holds.
    ensures report { IfOk result (IsReported dialect schema.now.tables text.now) }
    // Each refusal but `NoMemory` is the first that holds of the text.
    ensures refused { IfErr result (IsRefused dialect schema.now.tables text.now) }
{
    let tree = read_text(alloc, dialect, text)?;
    report(alloc, schema, tree.query())
}
