ghost use Rattle.std.specs.Prelude.{◌≡◌};
ghost use Rattle.sql_pass.specs.Held.{held};
ghost use Rattle.sql_pass.specs.Pieces.{one, Bind};
ghost use Rattle.sql_pass.specs.Walks.{Walks};
ghost use Rattle.sql_pass.specs.Bounds.{of_i16, of_i32, of_i64};

use sql_dialect::Backend;
use sql_pass::{AstPass, BoundRef, PassError, Value};
use sql_schema::{Base, SqlType};

/// Binds the number as a SmallInt.
pub(crate) fn push_small<DB: Backend>(number: i16, pass: &mut AstPass<DB>) -> Result<(), PassError>
    ensures { Walks DB.speaks (held DB.QueryBuilder.text DB.QueryBuilder.count pass.old)
        (one (Bind (of_i16 number))) result
        (held DB.QueryBuilder.text DB.QueryBuilder.count pass.new) }
{
    let ty = SqlType {
        base: Base::SmallInt,
        nullable: false,
    };
    pass.push_bind_param(BoundRef::Value(ty, &Value::SmallInt(number)))
}

/// Binds the number as an Integer.
pub(crate) fn push_integer<DB: Backend>(
    number: i32,
    pass: &mut AstPass<DB>,
) -> Result<(), PassError>
    ensures { Walks DB.speaks (held DB.QueryBuilder.text DB.QueryBuilder.count pass.old)
        (one (Bind (of_i32 number))) result
        (held DB.QueryBuilder.text DB.QueryBuilder.count pass.new) }
{
    let ty = SqlType {
        base: Base::Integer,
        nullable: false,
    };
    pass.push_bind_param(BoundRef::Value(ty, &Value::Integer(number)))
}

/// Binds the number as a BigInt.
pub(crate) fn push_big<DB: Backend>(number: i64, pass: &mut AstPass<DB>) -> Result<(), PassError>
    ensures { Walks DB.speaks (held DB.QueryBuilder.text DB.QueryBuilder.count pass.old)
        (one (Bind (of_i64 number))) result
        (held DB.QueryBuilder.text DB.QueryBuilder.count pass.new) }
{
    let ty = SqlType {
        base: Base::BigInt,
        nullable: false,
    };
    pass.push_bind_param(BoundRef::Value(ty, &Value::BigInt(number)))
}
