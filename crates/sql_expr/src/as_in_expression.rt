#![tactic(auto, using(sql_node::proofs::Trees::opens_in_values, sql_node::proofs::Trees::opens_statement))]

ghost use Rattle.std.specs.Prelude.{◌≡◌, false, IfOk, map};
ghost use Rattle.sql_schema.specs.declared.types.Base.TheVariants as base;
ghost use Rattle.sql_pass.specs.declared.value.Value.TheVariants as of;
ghost use Rattle.sql_node.specs.View.{Among, among_list, among_query, boxed_select_statement_tree, combination_clause_tree, in_values_tree, select_statement_tree, statement_tree};

use sql_node::{BoxedSelectStatement, CombinationClause, InValues, SelectStatement, Statement};
use sql_pass::Value;
use sql_schema::{Base, NoMemory, SqlList, SqlType};
use std::alloc::Global;

/// Where a membership looks: in a statement's rows, or in a list of Rust's values.
pub trait AsInExpression: Sized {
    /// The list, or the statement.
    ghost looks_in: { Self → Among };

    /// Returns where a membership looks: of `[7, 8]` the list that `IN (7, 8)` looks in, of a statement its rows, `IN (SELECT ..)`.
    fn as_in_expression(self, alloc: Global) -> Result<InValues, NoMemory>
        ensures { IfOk result (λ v. in_values_tree v ≡ looks_in self) };
}

/// The values, under the type of that base which has no NULL.
fn values_in(base: Base, values: Vec<Value>) -> InValues
    ensures { in_values_tree result
        ≡ among_list (record { base = base; nullable = false }) values.items }
{
    let ty = SqlType {
        base,
        nullable: false,
    };
    InValues::List(ty, SqlList::from(values))
}

impl AsInExpression for InValues {
    ghost looks_in = { in_values_tree };

    fn as_in_expression(self, _alloc: Global) -> Result<InValues, NoMemory> {
        Ok(self)
    }
}

impl AsInExpression for Statement {
    ghost looks_in = { λ s. among_query (statement_tree s) };

    fn as_in_expression(self, alloc: Global) -> Result<InValues, NoMemory> {
        Ok(InValues::Query(Box::new(alloc, self)?))
    }
}

impl AsInExpression for SelectStatement {
    ghost looks_in = { λ s. among_query (select_statement_tree s) };

    fn as_in_expression(self, alloc: Global) -> Result<InValues, NoMemory> {
        Statement::Select(self).as_in_expression(alloc)
    }
}

impl AsInExpression for BoxedSelectStatement {
    ghost looks_in = { λ s. among_query (boxed_select_statement_tree s) };

    fn as_in_expression(self, alloc: Global) -> Result<InValues, NoMemory> {
        Statement::Boxed(self).as_in_expression(alloc)
    }
}

impl AsInExpression for CombinationClause {
    ghost looks_in = { λ s. among_query (combination_clause_tree s) };

    fn as_in_expression(self, alloc: Global) -> Result<InValues, NoMemory> {
        Statement::Combination(self).as_in_expression(alloc)
    }
}

impl AsInExpression for &[i32] {
    ghost looks_in = { λ v. among_list (record { base = base.Integer; nullable = false })
        (map of.Integer v.now) };

    fn as_in_expression(self, alloc: Global) -> Result<InValues, NoMemory> {
        let mut all = Vec::new(alloc);
        for number in self {
            all.push(Value::Integer(*number))?;
        }
        Ok(values_in(Base::Integer, all))
    }
}

impl AsInExpression for &[i64] {
    ghost looks_in = { λ v. among_list (record { base = base.BigInt; nullable = false })
        (map of.BigInt v.now) };

    fn as_in_expression(self, alloc: Global) -> Result<InValues, NoMemory> {
        let mut all = Vec::new(alloc);
        for number in self {
            all.push(Value::BigInt(*number))?;
        }
        Ok(values_in(Base::BigInt, all))
    }
}
