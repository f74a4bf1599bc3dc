#![tactic(auto, using(sql_pass::proofs::Walking::walking))]

ghost use Rattle.std.specs.Prelude.{◌++◌, []};
ghost use Rattle.sql_pass.specs.Bounds.{bound_of};
ghost use Rattle.sql_pass.specs.Pieces.{one, Text, Bind, ValueOnly, Unsafe};

use sql_dialect::*;
use sql_pass::*;
use sql_schema::{Base, SqlList, SqlText, SqlType};
use std::alloc::Global;
use std::test::Fail;

/// A fragment of a user's own, of all five pieces but a name.
#[derive(Clone, Copy)]
struct Among<'a>(BoundRef<'a>);

impl<DB: Backend> QueryFragment<DB> for Among<'_> {
    ghost pieces = { λ a. one Unsafe
        ++ (one (Text []) ++ (one (ValueOnly (bound_of a.0)) ++ one (Bind (bound_of a.0)))) };

    fn walk_ast(&self, pass: &mut AstPass<DB>) -> Result<(), PassError> {
        pass.unsafe_to_cache_prepared();
        pass.push_sql("")?;
        pass.push_bind_param_value_only(self.0)?;
        pass.push_bind_param(self.0)?;
        Ok(())
    }
}

fn text<DB: Backend, T: QueryFragment<DB>>(
    alloc: Global,
    backend: &DB,
    part: &T,
) -> Result<String, PassError> {
    let builder = part.to_sql(backend.query_builder(alloc), backend)?;
    Ok(builder.finish())
}

#[test]
fn texts_of_parts(rt: HostRuntime) -> Result<(), Fail> {
    let alloc = rt.alloc();
    let path = InfixNode::new(Identifier("a"), Identifier("b"), ".");
    assert_eq!(rt; text(alloc, &Pg, &path)?.as_str(), "\"a\".\"b\"");
    assert_eq!(rt;
        text(alloc, &Bracket, &Box::new(alloc, path)?)?.as_str(),
        "[a].[b]"
    );
    let joined = InfixNode::new(Some(Identifier("a")), (), OnKeyword);
    assert_eq!(rt; text(alloc, &Sqlite, &joined)?.as_str(), "`a` ON ");
    let side = ParenthesisWrapper {
        inner: &Identifier("a"),
    };
    assert_eq!(rt; text(alloc, &Pg, &side)?.as_str(), "(\"a\")");
    assert_eq!(rt; text(alloc, &Mysql, &side)?.as_str(), "(`a`)");
    assert_eq!(rt; text(alloc, &Bracket, &side)?.as_str(), "([a])");
    assert_eq!(rt;
        text(alloc, &Sqlite, &side)?.as_str(),
        "SELECT * FROM (`a`)"
    );
    assert_eq!(rt; text(alloc, &Pg, &None::<Identifier>)?.as_str(), "");
    assert!(rt; None::<Identifier>.is_noop(&Pg) && !side.is_noop(&Pg));
    assert!(rt; side.is_safe_to_cache_prepared(&Pg));
    Ok(())
}

#[test]
fn five_passes_of_a_fragment(rt: HostRuntime) -> Result<(), Fail> {
    let alloc = rt.alloc();
    let value = true.bound(alloc)?;
    let placed = Among(value.view());
    assert_eq!(rt; text(alloc, &Pg, &placed)?.as_str(), "$2");
    assert_eq!(rt; text(alloc, &Mysql, &placed)?.as_str(), "?");
    assert_eq!(rt; text(alloc, &Bracket, &placed)?.as_str(), "@p2");
    let last = PgQueryBuilder::with_bind_idx(alloc, 4294967294);
    assert!(rt; matches!(placed.to_sql(last, &Pg), Err(PassError::TooManyBinds)));
    assert!(rt; !placed.is_safe_to_cache_prepared(&Mysql) && !placed.is_noop(&Mysql));
    let shown = debug_binds(alloc, &Mysql, &placed)?;
    assert_eq!(rt; shown.len(), 2);
    assert!(rt; shown[0] == value && shown[1] == value);
    let mut pass = AstPass::is_noop(Pg);
    pass.push_bind_param_value_only(value.view())?;
    assert!(rt; matches!(pass, AstPass::IsNoop(true, Pg)));
    pass.push_sql("")?;
    assert!(rt; matches!(pass, AstPass::IsNoop(false, Pg)));
    assert_eq!(rt; *pass.backend(), Pg);
    Ok(())
}

/// Whether these bytes are collected for both of the fragment's values.
fn collects<DB: Backend>(
    alloc: Global,
    backend: DB,
    value: &Bound,
    want: &[u8],
) -> Result<bool, PassError> {
    let empty = RawBytesBindCollector::new(alloc, backend);
    let collector = Among(value.view()).collect_binds(empty, &backend)?;
    Ok(collector.binds().len() == 2 && collector.binds().iter().all(|bytes| is(bytes, want)))
}

fn is(bytes: &Option<Vec<u8>>, want: &[u8]) -> bool {
    match bytes {
        Some(bytes) => bytes.as_slice() == want,
        None => false,
    }
}

/// Whether the value is bound as these bytes: on Pg, and on the others.
fn binds_as<T: ToSql>(
    alloc: Global,
    value: &T,
    pg: &[u8],
    others: &[u8],
) -> Result<bool, PassError> {
    let value = value.bound(alloc).map_err(|_| PassError::NoMemory)?;
    Ok(
        collects(alloc, Pg, &value, pg)?
            && collects(alloc, Mysql, &value, others)?
            && collects(alloc, Sqlite, &value, others)?
            && collects(alloc, Bracket, &value, others)?,
    )
}

#[test]
fn bytes_of_numbers(rt: HostRuntime) -> Result<(), Fail> {
    let alloc = rt.alloc();
    assert!(rt; binds_as(alloc, &1i32, &[0, 0, 0, 1], &[1, 0, 0, 0])?);
    assert!(rt; binds_as(alloc, &10i16, &[0, 10], &[10, 0])?);
    assert!(rt; binds_as(alloc, &-2i16, &[255, 254], &[254, 255])?);
    assert!(rt;
        binds_as(
            alloc,
            &5i64,
            &[0, 0, 0, 0, 0, 0, 0, 5],
            &[5, 0, 0, 0, 0, 0, 0, 0]
        )?
    );
    Ok(())
}

#[test]
fn bytes_of_the_others(rt: HostRuntime) -> Result<(), Fail> {
    let alloc = rt.alloc();
    assert!(rt; binds_as(alloc, &true, &[1], &[1])?);
    assert!(rt; binds_as(alloc, &"é", &[195, 169], &[195, 169])?);
    assert!(rt; binds_as(alloc, &String::from_str(alloc, "a")?, &[97], &[97])?);
    assert!(rt; binds_as(alloc, &[7u8].as_slice(), &[7], &[7])?);
    Ok(())
}

/// Whether the values are bound as one list of these bytes, on each backend.
fn list_binds_as(
    alloc: Global,
    base: Base,
    values: Vec<Value>,
    bytes: &[u8],
) -> Result<bool, PassError> {
    let ty = SqlType {
        base,
        nullable: true,
    };
    binds_as(alloc, &Bound::List(ty, SqlList::from(values)), bytes, bytes)
}

#[test]
fn bytes_of_lists(rt: HostRuntime) -> Result<(), Fail> {
    let alloc = rt.alloc();
    let numbers = vec![in alloc; Value::Integer(1), Value::Integer(2)]?;
    let bytes = [
        0, 0, 0, 1, 0, 0, 0, 0, 0, 0, 0, 23, 0, 0, 0, 2, 0, 0, 0, 1, 0, 0, 0, 4, 0, 0, 0, 1, 0, 0,
        0, 4, 0, 0, 0, 2,
    ];
    assert!(rt; list_binds_as(alloc, Base::Integer, numbers, &bytes)?);
    let text = SqlText::from(String::from_str(alloc, "é")?);
    let texts = vec![in alloc; Value::Null, Value::Text(text)]?;
    let bytes = [
        0, 0, 0, 1, 0, 0, 0, 1, 0, 0, 0, 25, 0, 0, 0, 2, 0, 0, 0, 1, 255, 255, 255, 255, 0, 0, 0,
        2, 195, 169,
    ];
    assert!(rt; list_binds_as(alloc, Base::Text, texts, &bytes)?);
    Ok(())
}

#[test]
fn types_of_binds(rt: HostRuntime) -> Result<(), Fail> {
    let ty = SqlType {
        base: Base::Integer,
        nullable: true,
    };
    let mut collector = RawBytesBindCollector::new(rt.alloc(), Pg);
    collector.push_null_value(ty)?;
    collector.push_bound_value(BoundRef::Value(ty, &Value::Null))?;
    collector.push_bound_value(BoundRef::List(ty, &[]))?;
    let types = [BindType::Value(ty), BindType::Value(ty), BindType::List(ty)];
    assert!(rt; collector.metadata() == types.as_slice());
    assert_eq!(rt; collector.binds().len(), 3);
    assert!(rt; collector.binds()[0].is_none() && collector.binds()[1].is_none());
    Ok(())
}
