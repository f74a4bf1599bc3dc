ghost use Rattle.std.specs.Prelude.{◌≡◌, IfOk};

use crate::{NoMemory, SqlList, SqlText, SqlType};
use std::alloc::Global;

/// A column as it is declared. Rust code looks it up by `name`, and SQL names it by `sql_name`.
#[derive(Debug, Drop, PartialEq, Eq)]
pub struct ColumnDecl {
    pub name: SqlText,
    pub sql_name: SqlText,
    pub ty: SqlType,
    /// How many characters or bytes the column takes at most, where the declaration says so.
    pub max_length: Option<u64>,
}

/// A table as it is declared: `CREATE TABLE schema.sql_name (..)`. Rust code looks it up by `name`.
#[derive(Debug, Drop, PartialEq, Eq)]
pub struct TableDecl {
    pub name: SqlText,
    pub sql_name: SqlText,
    pub schema: Option<SqlText>,
    pub columns: SqlList<ColumnDecl>,
    /// The `name`s of the columns of the primary key.
    pub primary_key: SqlList<SqlText>,
}

/// A relation as it is declared: `key` is the column of `child` that refers to the key of `parent`, all by `name`.
#[derive(Debug, Drop, PartialEq, Eq)]
pub struct JoinableDecl {
    pub child: SqlText,
    pub key: SqlText,
    pub parent: SqlText,
}

fn clone_texts(alloc: Global, texts: &[SqlText]) -> Result<Vec<SqlText>, NoMemory>
    ensures { IfOk result (λ v. v.items ≡ texts.now) }
{
    let mut all = Vec::new(alloc);
    for text in texts {
        all.push(text.try_clone(alloc)?)?;
    }
    Ok(all)
}

fn clone_columns(alloc: Global, columns: &[ColumnDecl]) -> Result<Vec<ColumnDecl>, NoMemory>
    ensures { IfOk result (λ v. v.items ≡ columns.now) }
{
    let mut all = Vec::new(alloc);
    for column in columns {
        all.push(column.try_clone(alloc)?)?;
    }
    Ok(all)
}

fn clone_schema(alloc: Global, schema: &Option<SqlText>) -> Result<Option<SqlText>, NoMemory>
    ensures { IfOk result (λ v. v ≡ schema.now) }
{
    match schema {
        None => Ok(None),
        Some(text) => Ok(Some(text.try_clone(alloc)?)),
    }
}

impl ColumnDecl {
    /// An equal declaration.
    pub fn try_clone(&self, alloc: Global) -> Result<ColumnDecl, NoMemory>
        ensures { IfOk result (λ v. v ≡ self.now) }
    {
        let name = self.name.try_clone(alloc)?;
        let sql_name = self.sql_name.try_clone(alloc)?;
        Ok(ColumnDecl {
            name,
            sql_name,
            ty: self.ty,
            max_length: self.max_length,
        })
    }
}

impl TableDecl {
    /// An equal declaration.
    pub fn try_clone(&self, alloc: Global) -> Result<TableDecl, NoMemory>
        ensures { IfOk result (λ v. v ≡ self.now) }
    {
        let name = self.name.try_clone(alloc)?;
        let sql_name = self.sql_name.try_clone(alloc)?;
        let schema = clone_schema(alloc, &self.schema)?;
        let columns = SqlList::from(clone_columns(alloc, self.columns.as_slice())?);
        let primary_key = SqlList::from(clone_texts(alloc, self.primary_key.as_slice())?);
        Ok(TableDecl {
            name,
            sql_name,
            schema,
            columns,
            primary_key,
        })
    }
}

impl JoinableDecl {
    /// An equal declaration.
    pub fn try_clone(&self, alloc: Global) -> Result<JoinableDecl, NoMemory>
        ensures { IfOk result (λ v. v ≡ self.now) }
    {
        let child = self.child.try_clone(alloc)?;
        let key = self.key.try_clone(alloc)?;
        let parent = self.parent.try_clone(alloc)?;
        Ok(JoinableDecl { child, key, parent })
    }
}
