ghost use Rattle.std.specs.Prelude.{◌≡◌, map, IfOk};
ghost use Rattle.serde_json.specs.Data.{string};
ghost use Rattle.serde_json.specs.View.{view};
ghost use Rattle.sql_tool_audit.specs.Line.{column_data, source_data, report_data};

use serde_json::{Value as Json, json};
use sql_audit::{AuditReport, ColumnUse};
use sql_schema::SqlText;
use std::alloc::{AllocError, Global};

fn tables_json(alloc: Global, tables: &[SqlText]) -> Result<Vec<Json>, AllocError>
    ensures { IfOk result (λ v. map view v.items ≡ map string tables.now) }
{
    let mut all = Vec::new(alloc);
    for table in tables {
        all.push(Json::try_from_str(alloc, table.as_str())?)?;
    }
    Ok(all)
}

fn column_json(alloc: Global, used: &ColumnUse) -> Result<Json, AllocError>
    ensures { IfOk result (λ v. view v ≡ column_data used.now) }
{
    json!(in alloc; [used.table.as_str(), used.column.as_str()])
}

fn columns_json(alloc: Global, uses: &[ColumnUse]) -> Result<Vec<Json>, AllocError>
    ensures { IfOk result (λ v. map view v.items ≡ map column_data uses.now) }
{
    let mut all = Vec::new(alloc);
    for used in uses {
        all.push(column_json(alloc, used)?)?;
    }
    Ok(all)
}

fn sources_json(alloc: Global, uses: &[ColumnUse]) -> Result<Vec<Json>, AllocError>
    ensures { IfOk result (λ v. map view v.items ≡ map source_data uses.now) }
{
    let mut all = Vec::new(alloc);
    for used in uses {
        all.push(Json::from(used.leaf as u64))?;
    }
    Ok(all)
}

/// The object of a report: `{"columns":[["users","id"]],"sources":[0],"tables":["users"]}`.
pub(crate) fn reported(alloc: Global, report: &AuditReport) -> Result<Json, AllocError>
    ensures { IfOk result (λ v. view v ≡ report_data report.now) }
{
    let columns = columns_json(alloc, report.uses.as_slice())?;
    let sources = sources_json(alloc, report.uses.as_slice())?;
    let tables = tables_json(alloc, report.tables.as_slice())?;
    json!(in alloc; {
        "columns": columns,
        "sources": sources,
        "tables": tables,
    })
}
