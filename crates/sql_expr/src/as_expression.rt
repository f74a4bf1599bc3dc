#![tactic(auto, using(sql_node::proofs::Trees::opens_expr))]

ghost use Rattle.std.specs.Prelude.{◌≡◌, IfOk, string_bytes};
ghost use Rattle.sql_schema.specs.declared.types.Base.TheVariants as base;
ghost use Rattle.sql_pass.specs.declared.value.Value.TheVariants as of;
ghost use Rattle.sql_node.specs.Tree as tree;
ghost use Rattle.sql_node.specs.View.{column_of, expr_tree, field_of};
ghost use Rattle.sql_expr.specs.Calls.{bound_as};

use sql_leaf::AliasedField;
use sql_node::Expr;
use sql_pass::Value;
use sql_schema::{Base, Column, NoMemory, SqlBytes, SqlText, SqlType};
use std::alloc::Global;

/// What stands for an expression: an expression itself, a column, the field of an alias, or one of Rust's values, which is bound.
pub trait AsExpression: Sized {
    /// The expression.
    ghost expression: { Self → tree.Expr };

    /// Returns it as an expression: a column is `"users"."id"`, and a value is bound to a placeholder, `$1`, under the type of its
    /// kind that has no NULL. Texts and bytes that are borrowed are copied.
    fn as_expression(self, alloc: Global) -> Result<Expr, NoMemory>
        ensures { IfOk result (λ e. expr_tree e ≡ expression self) };
}

/// The value, to be bound, under the type of that base which has no NULL.
fn plain(base: Base, value: Value) -> Expr
    ensures { expr_tree result ≡ bound_as base value }
{
    let ty = SqlType {
        base,
        nullable: false,
    };
    Expr::Value(ty, value)
}

impl AsExpression for Expr {
    ghost expression = { expr_tree };

    fn as_expression(self, _alloc: Global) -> Result<Expr, NoMemory> {
        Ok(self)
    }
}

impl AsExpression for Column {
    ghost expression = { column_of };

    fn as_expression(self, _alloc: Global) -> Result<Expr, NoMemory> {
        Ok(Expr::Column(self))
    }
}

impl AsExpression for &Column {
    ghost expression = { λ c. column_of c.now };

    fn as_expression(self, alloc: Global) -> Result<Expr, NoMemory> {
        Ok(Expr::Column(self.try_clone(alloc)?))
    }
}

impl AsExpression for AliasedField {
    ghost expression = { field_of };

    fn as_expression(self, _alloc: Global) -> Result<Expr, NoMemory> {
        Ok(Expr::Field(self))
    }
}

impl AsExpression for i16 {
    ghost expression = { λ n. bound_as base.SmallInt (of.SmallInt n) };

    fn as_expression(self, _alloc: Global) -> Result<Expr, NoMemory> {
        Ok(plain(Base::SmallInt, Value::SmallInt(self)))
    }
}

impl AsExpression for i32 {
    ghost expression = { λ n. bound_as base.Integer (of.Integer n) };

    fn as_expression(self, _alloc: Global) -> Result<Expr, NoMemory> {
        Ok(plain(Base::Integer, Value::Integer(self)))
    }
}

impl AsExpression for i64 {
    ghost expression = { λ n. bound_as base.BigInt (of.BigInt n) };

    fn as_expression(self, _alloc: Global) -> Result<Expr, NoMemory> {
        Ok(plain(Base::BigInt, Value::BigInt(self)))
    }
}

impl AsExpression for bool {
    ghost expression = { λ b. bound_as base.Bool (of.Bool b) };

    fn as_expression(self, _alloc: Global) -> Result<Expr, NoMemory> {
        Ok(plain(Base::Bool, Value::Bool(self)))
    }
}

impl AsExpression for &str {
    ghost expression = { λ s. bound_as base.Text (of.Text s.now) };

    fn as_expression(self, alloc: Global) -> Result<Expr, NoMemory> {
        let text = String::from_str(alloc, self)?;
        Ok(plain(Base::Text, Value::Text(SqlText::from(text))))
    }
}

impl AsExpression for String {
    ghost expression = { λ s. bound_as base.Text (of.Text (string_bytes s)) };

    fn as_expression(self, _alloc: Global) -> Result<Expr, NoMemory> {
        Ok(plain(Base::Text, Value::Text(SqlText::from(self))))
    }
}

impl AsExpression for &[u8] {
    ghost expression = { λ s. bound_as base.Binary (of.Binary s.now) };

    fn as_expression(self, alloc: Global) -> Result<Expr, NoMemory> {
        let bytes = Vec::from_slice(alloc, self)?;
        Ok(plain(Base::Binary, Value::Binary(SqlBytes::from(bytes))))
    }
}

impl AsExpression for Vec<u8> {
    ghost expression = { λ v. bound_as base.Binary (of.Binary v.items) };

    fn as_expression(self, _alloc: Global) -> Result<Expr, NoMemory> {
        Ok(plain(Base::Binary, Value::Binary(SqlBytes::from(self))))
    }
}
