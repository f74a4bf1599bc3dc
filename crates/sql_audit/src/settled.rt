ghost use Rattle.std.specs.Prelude.{◌≡◌, false, is_none, IfOk};
ghost use Rattle.std.specs.List.{list_any};
ghost use Rattle.sql_audit.specs.Report.{is_nothing, is_several};
ghost use Rattle.sql_audit.specs.inside.Settled.{columns_among, known};

use sql_audit_resolution::{ColumnUse, Meaning};
use sql_schema::{NoMemory, SqlText};
use std::alloc::Global;

/// Whether one of the tables is none of the schema's.
pub(crate) fn any_unknown(tables: &[Option<SqlText>]) -> bool
    ensures { result ≡ list_any is_none tables.now }
{
    tables.iter().any(|table| table.is_none())
}

fn names_nothing(meaning: &Meaning) -> bool
    ensures { result ≡ is_nothing meaning.now }
{
    match meaning {
        Meaning::Nothing => true,
        Meaning::Several => false,
        Meaning::Column(_) => false,
    }
}

fn names_several(meaning: &Meaning) -> bool
    ensures { result ≡ is_several meaning.now }
{
    match meaning {
        Meaning::Nothing => false,
        Meaning::Several => true,
        Meaning::Column(_) => false,
    }
}

/// Whether one of the paths names nothing.
pub(crate) fn any_nothing(meanings: &[Meaning]) -> bool
    ensures { result ≡ list_any is_nothing meanings.now }
{
    meanings.iter().any(names_nothing)
}

/// Whether one of the paths names several leaves.
pub(crate) fn any_several(meanings: &[Meaning]) -> bool
    ensures { result ≡ list_any is_several meanings.now }
{
    meanings.iter().any(names_several)
}

/// The tables that there are.
pub(crate) fn known_tables(
    alloc: Global,
    tables: Vec<Option<SqlText>>,
) -> Result<Vec<SqlText>, NoMemory>
    ensures { IfOk result (λ v. v.items ≡ known tables.items) }
{
    let mut all = Vec::new(alloc);
    for table in tables {
        match table {
            None => {}
            Some(name) => all.push(name)?,
        }
    }
    Ok(all)
}

/// The columns that the paths stand for.
pub(crate) fn columns(alloc: Global, meanings: Vec<Meaning>) -> Result<Vec<ColumnUse>, NoMemory>
    ensures { IfOk result (λ v. v.items ≡ columns_among meanings.items) }
{
    let mut all = Vec::new(alloc);
    for meaning in meanings {
        match meaning {
            Meaning::Nothing => {}
            Meaning::Several => {}
            Meaning::Column(column) => all.push(column)?,
        }
    }
    Ok(all)
}
