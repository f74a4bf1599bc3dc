ghost use Rattle.std.specs.Prelude.{◌≡◌, IfOk};
ghost use Rattle.sql_pass.specs.Bounds.{bound_of};

use sql_schema::{SqlBytes, SqlList, SqlText, SqlType};
use std::alloc::{AllocError, Global};

/// A value of one of the base types, or NULL.
#[derive(Debug, Drop, PartialEq, Eq, PartialOrd, Ord, Hash)]
pub enum Value {
    SmallInt(i16),
    Integer(i32),
    BigInt(i64),
    Text(SqlText),
    Binary(SqlBytes),
    Bool(bool),
    Null,
}

/// A value that is bound to a placeholder, or a list of values that is bound as one.
#[derive(Debug, Drop, PartialEq, Eq)]
pub enum Bound {
    Value(SqlType, Value),
    List(SqlType, SqlList<Value>),
}

/// A borrowed `Bound`, so that a walk copies no value.
#[derive(Debug, Clone, Copy)]
pub enum BoundRef<'a> {
    Value(SqlType, &'a Value),
    List(SqlType, &'a [Value]),
}

impl Value {
    /// The same value.
    pub fn try_clone(&self, alloc: Global) -> Result<Value, AllocError>
        ensures { IfOk result (λ v. v ≡ self.now) }
    {
        match self {
            Value::SmallInt(n) => Ok(Value::SmallInt(*n)),
            Value::Integer(n) => Ok(Value::Integer(*n)),
            Value::BigInt(n) => Ok(Value::BigInt(*n)),
            Value::Binary(bytes) => Ok(Value::Binary(bytes.try_clone(alloc)?)),
            Value::Text(text) => Ok(Value::Text(text.try_clone(alloc)?)),
            Value::Bool(b) => Ok(Value::Bool(*b)),
            Value::Null => Ok(Value::Null),
        }
    }
}

fn clone_values(alloc: Global, values: &[Value]) -> Result<Vec<Value>, AllocError>
    ensures { IfOk result (λ v. v.items ≡ values.now) }
{
    let mut all = Vec::new(alloc);
    for value in values {
        all.push(value.try_clone(alloc)?)?;
    }
    Ok(all)
}

impl Bound {
    /// Returns an equal value, or list of values.
    pub fn try_clone(&self, alloc: Global) -> Result<Bound, AllocError>
        ensures { IfOk result (λ b. b ≡ self.now) }
    {
        self.view().to_bound(alloc)
    }

    /// The same value, borrowed.
    pub fn view(&self) -> BoundRef<'_>
        ensures { bound_of result ≡ self.now }
    {
        match self {
            Bound::Value(ty, value) => BoundRef::Value(*ty, value),
            Bound::List(ty, values) => BoundRef::List(*ty, values.as_slice()),
        }
    }
}

impl BoundRef<'_> {
    /// The same value, owned.
    pub fn to_bound(self, alloc: Global) -> Result<Bound, AllocError>
        ensures { IfOk result (λ b. b ≡ bound_of self.entry) }
    {
        match self {
            BoundRef::Value(ty, value) => Ok(Bound::Value(ty, value.try_clone(alloc)?)),
            BoundRef::List(ty, values) => {
                let all = clone_values(alloc, values)?;
                Ok(Bound::List(ty, SqlList::from(all)))
            }
        }
    }
}
