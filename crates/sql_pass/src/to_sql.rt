ghost use Rattle.std.specs.Prelude.{◌≡◌, IfOk, string_bytes};
ghost use Rattle.sql_pass.specs.Bounds.{plain_value, of_i16, of_i32, of_i64, of_bool, of_text, of_bytes};
ghost use Rattle.sql_pass.specs.declared.value.Bound.{Bound};

use crate::value::{Bound, Value};
use sql_dialect::NoMemory;
use sql_schema::{Base, SqlBytes, SqlText, SqlType};
use std::alloc::Global;

/// A value that may be bound.
pub trait ToSql {
    /// The value or the list that is bound for it.
    ghost binds: { Self → Bound };

    /// The bound value: of `7i32` the Integer 7. Of Rust's values the type is the one that has no NULL.
    fn bound(&self, alloc: Global) -> Result<Bound, NoMemory>
        ensures { IfOk result (λ b. b ≡ binds self.now) };
}

impl ToSql for i16 {
    ghost binds = { of_i16 };

    fn bound(&self, _alloc: Global) -> Result<Bound, NoMemory> {
        Ok(plain(Base::SmallInt, Value::SmallInt(*self)))
    }
}

impl ToSql for i32 {
    ghost binds = { of_i32 };

    fn bound(&self, _alloc: Global) -> Result<Bound, NoMemory> {
        Ok(plain(Base::Integer, Value::Integer(*self)))
    }
}

impl ToSql for i64 {
    ghost binds = { of_i64 };

    fn bound(&self, _alloc: Global) -> Result<Bound, NoMemory> {
        Ok(plain(Base::BigInt, Value::BigInt(*self)))
    }
}

impl ToSql for bool {
    ghost binds = { of_bool };

    fn bound(&self, _alloc: Global) -> Result<Bound, NoMemory> {
        Ok(plain(Base::Bool, Value::Bool(*self)))
    }
}

impl ToSql for &str {
    ghost binds = { λ s. of_text s.now };

    fn bound(&self, alloc: Global) -> Result<Bound, NoMemory> {
        let text = String::from_str(alloc, *self)?;
        Ok(plain(Base::Text, Value::Text(SqlText::from(text))))
    }
}

impl ToSql for String {
    ghost binds = { λ s. of_text (string_bytes s) };

    fn bound(&self, alloc: Global) -> Result<Bound, NoMemory> {
        let text = String::from_str(alloc, self.as_str())?;
        Ok(plain(Base::Text, Value::Text(SqlText::from(text))))
    }
}

impl ToSql for &[u8] {
    ghost binds = { λ s. of_bytes s.now };

    fn bound(&self, alloc: Global) -> Result<Bound, NoMemory> {
        let bytes = Vec::from_slice(alloc, *self)?;
        Ok(plain(Base::Binary, Value::Binary(SqlBytes::from(bytes))))
    }
}

impl ToSql for Bound {
    ghost binds = { λ b. b };

    fn bound(&self, alloc: Global) -> Result<Bound, NoMemory> {
        self.view().to_bound(alloc)
    }
}

/// The value under the type of that base which has no NULL.
fn plain(base: Base, value: Value) -> Bound
    ensures { result ≡ plain_value base value }
{
    let ty = SqlType {
        base,
        nullable: false,
    };
    Bound::Value(ty, value)
}
