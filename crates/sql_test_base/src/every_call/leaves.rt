//! The nodes that hold no expression.

use sql_leaf::{
    Alias, AliasedField, BoxedLimitOffset, Direction, JoinKind, LimitOffsetClause, LockMode,
    LockingClause, Marks, Modifier, OrderColumn, PositionalItem, TableSource, Tablesample,
    TablesampleMethod,
};
use sql_test_kit::{column, copies, is, table, text, writes};
use std::alloc::Global;
use std::test::Fail;

pub fn every_call(alloc: Global) -> Result<(), Fail> {
    aliases(alloc)?;
    rows(alloc)?;
    locks(alloc)?;
    places(alloc)?;
    tables(alloc)
}

fn aliases(alloc: Global) -> Result<(), Fail> {
    let alias = Alias {
        name: text(alloc, "u")?,
        table: table(alloc, "users")?,
    };
    copies(alloc, alias, Alias::try_clone, "\"users\" AS \"u\"")?;
    let field = AliasedField {
        alias: text(alloc, "u")?,
        column: column(alloc, "users", "id")?,
    };
    copies(alloc, field, AliasedField::try_clone, "\"u\".\"id\"")
}

fn rows(alloc: Global) -> Result<(), Fail> {
    let rows = LimitOffsetClause {
        limit_clause: Some(1),
        offset_clause: Some(2),
    };
    copies(
        alloc,
        rows,
        LimitOffsetClause::try_clone,
        " LIMIT $1 OFFSET $2",
    )?;
    copies(
        alloc,
        BoxedLimitOffset(rows),
        BoxedLimitOffset::try_clone,
        " LIMIT $1 OFFSET $2",
    )
}

fn locks(alloc: Global) -> Result<(), Fail> {
    copies(alloc, LockMode::ForShare, LockMode::try_clone, " FOR SHARE")?;
    copies(alloc, Modifier::NoWait, Modifier::try_clone, " NOWAIT")?;
    let lock = LockingClause::LockingClause(LockMode::ForShare, Modifier::SkipLocked);
    copies(
        alloc,
        lock,
        LockingClause::try_clone,
        " FOR SHARE SKIP LOCKED",
    )?;
    copies(alloc, Marks::none(), Marks::try_clone, "")
}

fn places(alloc: Global) -> Result<(), Fail> {
    copies(alloc, Direction::Desc, Direction::try_clone, " DESC")?;
    copies(alloc, OrderColumn(2), OrderColumn::try_clone, "2")?;
    let item = PositionalItem {
        column: OrderColumn(2),
        direction: Direction::Asc,
    };
    copies(alloc, item, PositionalItem::try_clone, "2 ASC")
}

fn tables(alloc: Global) -> Result<(), Fail> {
    let sample = Tablesample {
        method: TablesampleMethod::SystemMethod,
        portion: 10,
        seed: Some(3),
    };
    copies(
        alloc,
        sample,
        Tablesample::try_clone,
        " TABLESAMPLE SYSTEM($1) REPEATABLE($2)",
    )?;
    let method = TablesampleMethod::try_clone(&sample.method, alloc)?;
    is(method == TablesampleMethod::SystemMethod, "the method")?;
    copies(alloc, JoinKind::Inner, JoinKind::try_clone, " INNER")?;
    writes(alloc, JoinKind::LeftOuter, " LEFT OUTER")?;
    let source = TableSource {
        table: table(alloc, "users")?,
        only: true,
        sample: None,
    };
    copies(alloc, source, TableSource::try_clone, " ONLY \"users\"")
}
