#![tactic(auto, using(sql_node::proofs::Trees::opens_expr, sql_node::proofs::Trees::opens_in_values, crate::proofs::FieldLaws::fields))]

ghost use Rattle.std.specs.Prelude.{◌≡◌, ℕ, List, IfOk, map, string_bytes};
ghost use Rattle.sql_schema.specs.declared.declaration.TableDecl.{TableDecl};
ghost use Rattle.sql_leaf.specs.declared.alias.Alias.{Alias as Seen};
ghost use Rattle.sql_node.specs.View.{column_of, expr_tree};
ghost use Rattle.sql_source.specs.Fields.{fields_in};

use sql_leaf::{Alias, AliasedField};
use sql_node::Expr;
use sql_origin::same_table;
use sql_schema::{Column, NoMemory, SqlList, SqlText, Table};
use std::alloc::Global;

/// Tables under names of their own.
pub trait NewAlias {
    /// The table under that name: `"users" AS "u2"`.
    fn new(name: String, table: Table) -> Alias
        ensures { result ≡ record { name = string_bytes name; table = table } };
}

/// The name and the table of which an alias is made.
pub trait AliasSource {
    ghost alias_name: { Self → List ℕ };

    ghost aliased_table: { Self → TableDecl };

    /// The name that stands for the table: `u2`.
    fn name(&self) -> &str
        ensures { result.now ≡ alias_name self.now };

    /// The table itself.
    fn target(&self) -> &Table
        ensures { result.now ≡ aliased_table self.now };
}

/// Columns of an aliased table.
pub trait AliasFields {
    ghost alias: { Self → Seen };

    /// The column under the alias: `"u2"."id"`. It should be a column of the aliased table.
    fn field(&self, alloc: Global, column: &Column) -> Result<AliasedField, NoMemory>
        ensures { IfOk result (λ f. f
            ≡ record { alias = (alias self.now).name; column = column.now }) };

    /// The same expression with `"u2"."id"` in place of `"users"."id"`, for each column of the table. What stands in a
    /// subselect stays, and so do other tables' columns and aliased fields.
    fn fields(&self, alloc: Global, expr: Expr) -> Result<Expr, NoMemory>
        ensures { IfOk result (λ e. expr_tree e
            ≡ fields_in (alias self.now).name (alias self.now).table (expr_tree expr)) };
}

impl NewAlias for Alias {
    fn new(name: String, table: Table) -> Alias {
        Alias {
            name: SqlText::from(name),
            table,
        }
    }
}

impl AliasSource for Alias {
    ghost alias_name = { λ a. a.name };

    ghost aliased_table = { λ a. a.table };

    fn name(&self) -> &str {
        self.name.as_str()
    }

    fn target(&self) -> &Table {
        &self.table
    }
}

impl AliasFields for Alias {
    ghost alias = { λ a. a };

    fn field(&self, alloc: Global, column: &Column) -> Result<AliasedField, NoMemory> {
        let alias = self.name.try_clone(alloc)?;
        let column = column.try_clone(alloc)?;
        Ok(AliasedField { alias, column })
    }

    fn fields(&self, alloc: Global, expr: Expr) -> Result<Expr, NoMemory> {
        Renaming { alloc, alias: self }.expr(&expr)
    }
}

/// Copies expressions with an alias in place of its table.
#[derive(Clone, Copy)]
struct Renaming<'a> {
    alloc: Global,
    alias: &'a Alias,
}

impl Renaming<'_> {
    fn column(self, column: &Column) -> Result<Expr, NoMemory>
        ensures { IfOk result (λ e. expr_tree e
            ≡ fields_in self.entry.alias.now.name self.entry.alias.now.table
            (column_of column.now)) }
    {
        let column = column.try_clone(self.alloc)?;
        if same_table(&self.alias.table, column.table()) {
            let alias = self.alias.name.try_clone(self.alloc)?;
            Ok(Expr::Field(AliasedField { alias, column }))
        } else {
            Ok(Expr::Column(column))
        }
    }

    #[cycle(renaming)]
    fn boxed(self, expr: &Expr) -> Result<Box<Expr>, NoMemory>
        ensures { IfOk result (λ b. expr_tree b.value
            ≡ fields_in self.entry.alias.now.name self.entry.alias.now.table (expr_tree expr.now)) }
    {
        Ok(Box::new(self.alloc, self.expr(expr)?)?)
    }

    #[cycle(renaming)]
    fn each(self, exprs: &[Expr]) -> Result<Vec<Expr>, NoMemory>
        ensures { IfOk result (λ v. map expr_tree v.items
            ≡ map (fields_in self.entry.alias.now.name self.entry.alias.now.table)
            (map expr_tree exprs.now)) }
    {
        let mut all = Vec::new(self.alloc);
        for expr in exprs {
            all.push(self.expr(expr)?)?;
        }
        Ok(all)
    }

    #[cycle(renaming)]
    fn expr(self, expr: &Expr) -> Result<Expr, NoMemory>
        ensures { IfOk result (λ e. expr_tree e
            ≡ fields_in self.entry.alias.now.name self.entry.alias.now.table (expr_tree expr.now)) }
    {
        match expr {
            Expr::Column(column) => self.column(column),
            Expr::List(exprs) => {
                let exprs = self.each(exprs.as_slice())?;
                Ok(Expr::List(SqlList::from(exprs)))
            }
            Expr::Nullable(a) => Ok(Expr::Nullable(self.boxed(a)?)),
            Expr::Not(a) => Ok(Expr::Not(self.boxed(a)?)),
            Expr::IsNull(a) => Ok(Expr::IsNull(self.boxed(a)?)),
            Expr::IsNotNull(a) => Ok(Expr::IsNotNull(self.boxed(a)?)),
            Expr::Count(a) => Ok(Expr::Count(self.boxed(a)?)),
            Expr::Eq(a, b) => Ok(Expr::Eq(self.boxed(a)?, self.boxed(b)?)),
            Expr::Ne(a, b) => Ok(Expr::Ne(self.boxed(a)?, self.boxed(b)?)),
            Expr::Gt(a, b) => Ok(Expr::Gt(self.boxed(a)?, self.boxed(b)?)),
            Expr::Ge(a, b) => Ok(Expr::Ge(self.boxed(a)?, self.boxed(b)?)),
            Expr::Lt(a, b) => Ok(Expr::Lt(self.boxed(a)?, self.boxed(b)?)),
            Expr::Le(a, b) => Ok(Expr::Le(self.boxed(a)?, self.boxed(b)?)),
            Expr::And(a, b) => Ok(Expr::And(self.boxed(a)?, self.boxed(b)?)),
            Expr::Or(a, b) => Ok(Expr::Or(self.boxed(a)?, self.boxed(b)?)),
            Expr::EqAny(a, among) => {
                let among = among.try_clone(self.alloc)?;
                Ok(Expr::EqAny(self.boxed(a)?, among))
            }
            Expr::NeAll(a, among) => {
                let among = among.try_clone(self.alloc)?;
                Ok(Expr::NeAll(self.boxed(a)?, among))
            }
            // Without columns, or within a subselect.
            Expr::Field(_)
            | Expr::Value(_, _)
            | Expr::CountStar
            | Expr::Exists(_)
            | Expr::Subselect(_) => expr.try_clone(self.alloc),
        }
    }
}
