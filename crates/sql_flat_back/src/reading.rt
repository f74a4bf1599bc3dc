//! The statement of a flat list, by one loop from the last node to the first. Each node takes the parts that its children
//! stand for from the stack (`sql_flat_law`), and puts its own. Of the list that `sql_flat` shows, from the top on:
//!
//! ```text
//! 7  Value 1              $1
//! 6  Column "users"."id"  "users"."id", $1
//! 5  Compared =           ("users"."id" = $1)
//! 4  Where                WHERE ("users"."id" = $1)
//! 3  Table "users"        "users", WHERE ..
//! 2  From                 FROM "users", WHERE ..
//! 1  Column "users"."id"  "users"."id", FROM "users", WHERE ..
//! 0  Select               the statement
//! ```
#![tactic(auto, using(sql_flat_law::proofs::Finishing::finished_push))]

ghost use Rattle.std.specs.Prelude.{◌≡◌, IfOk, OnOk, option_map};
ghost use Rattle.sql_node.specs.View.{statement_tree};
ghost use Rattle.sql_flat.specs.declared.kind.FlatKind.TheVariants as K;
ghost use Rattle.sql_flat.specs.inside.Parts.{over, over_three};
ghost use Rattle.sql_flat.specs.inside.Reading.{read_from, root_of};
ghost use Rattle.sql_flat_back.specs.inside.Stacks.{part_of, put_at, split, stack};

use crate::over::part_over_few;
use crate::part::Part;
use crate::stack::{
    leave, next, take_clauses, take_exprs, take_items, take_positions, take_values,
};
use sql_flat::{FlatKind, FlatNode};
use sql_flat_law::Finished;
use sql_node::{Expr, Statement};
use sql_schema::{NoMemory, SqlList, SqlType};
use std::alloc::Global;

#[tactic(auto, using(sql_node::proofs::Trees::opens_expr))]
fn list_part(alloc: Global, end: usize, done: &mut Vec<Finished<Part>>) -> Result<Part, NoMemory>
    ensures part { IfOk result (λ p. part_of p ≡ over K.List (split end done.old.items).0) }
    ensures left { OnOk result (stack done.new.items ≡ (split end done.old.items).1) }
{
    let exprs = take_exprs(alloc, done, end)?;
    Ok(Part::Expr(Expr::List(SqlList::from(exprs))))
}

fn values_part(
    alloc: Global,
    ty: SqlType,
    end: usize,
    done: &mut Vec<Finished<Part>>,
) -> Result<Part, NoMemory>
    ensures part { IfOk result (λ p. part_of p ≡ over (K.Values ty) (split end done.old.items).0) }
    ensures left { OnOk result (stack done.new.items ≡ (split end done.old.items).1) }
{
    let values = take_values(alloc, done, end)?;
    Ok(Part::Values(ty, SqlList::from(values)))
}

fn order_part(alloc: Global, end: usize, done: &mut Vec<Finished<Part>>) -> Result<Part, NoMemory>
    ensures part { IfOk result (λ p. part_of p ≡ over K.OrderBy (split end done.old.items).0) }
    ensures left { OnOk result (stack done.new.items ≡ (split end done.old.items).1) }
{
    let items = take_items(alloc, done, end)?;
    Ok(Part::OrderBy(SqlList::from(items)))
}

fn positions_part(
    alloc: Global,
    end: usize,
    done: &mut Vec<Finished<Part>>,
) -> Result<Part, NoMemory>
    ensures part { IfOk result (λ p. part_of p ≡ over K.Positions (split end done.old.items).0) }
    ensures left { OnOk result (stack done.new.items ≡ (split end done.old.items).1) }
{
    let items = take_positions(alloc, done, end)?;
    Ok(Part::Positions(SqlList::from(items)))
}

/// Returns the part that a node over at most three children stands for.
fn few_part(
    alloc: Global,
    kind: &FlatKind,
    end: usize,
    done: &mut Vec<Finished<Part>>,
) -> Result<Part, NoMemory>
    ensures part { IfOk result (λ p. part_of p
        ≡ over_three kind.now (split end done.old.items).0) }
    ensures left { OnOk result (stack done.new.items ≡ (split end done.old.items).1) }
{
    let one = next(done, end);
    let two = next(done, end);
    let three = next(done, end);
    leave(done, end);
    part_over_few(alloc, kind, one, two, three)
}

/// Returns the part that a node of that kind stands for, over the trees that begin before the end. It takes these off the stack.
fn part_over(
    alloc: Global,
    kind: &FlatKind,
    end: usize,
    done: &mut Vec<Finished<Part>>,
) -> Result<Part, NoMemory>
    ensures part { IfOk result (λ p. part_of p ≡ over kind.now (split end done.old.items).0) }
    ensures left { OnOk result (stack done.new.items ≡ (split end done.old.items).1) }
{
    match kind {
        FlatKind::List => list_part(alloc, end, done),
        FlatKind::Values(ty) => values_part(alloc, *ty, end, done),
        FlatKind::OrderBy => order_part(alloc, end, done),
        FlatKind::Positions => positions_part(alloc, end, done),
        FlatKind::Select(selecting) => {
            let clauses = take_clauses(done, end, selecting.unique);
            clauses.into_part(alloc, *selecting)
        }
        _ => few_part(alloc, kind, end, done),
    }
}

fn put(
    alloc: Global,
    index: usize,
    node: &FlatNode,
    done: &mut Vec<Finished<Part>>,
) -> Result<(), NoMemory>
    ensures { OnOk result (stack done.new.items
        ≡ put_at index node.now.kind (split node.now.end done.old.items)) }
{
    let part = part_over(alloc, &node.kind, node.end, done)?;
    done.push(Finished {
        start: index,
        value: part,
    })?;
    Ok(())
}

fn read(alloc: Global, nodes: &[FlatNode]) -> Result<Vec<Finished<Part>>, NoMemory>
    ensures { IfOk result (λ v. stack v.items ≡ read_from 0 nodes.now) }
{
    let mut done = Vec::new(alloc);
    let mut index = nodes.len();
    while index > 0 {
        index -= 1;
        put(alloc, index, &nodes[index], &mut done)?;
    }
    Ok(done)
}

/// The statement that the whole list stands for, where it stands for one.
pub(crate) fn read_statement(
    alloc: Global,
    nodes: &[FlatNode],
) -> Result<Option<Box<Statement>>, NoMemory>
    ensures { IfOk result (λ s. option_map (λ b. statement_tree b.value) s
        ≡ root_of (read_from 0 nodes.now)) }
{
    let mut done = read(alloc, nodes)?;
    Ok(next(&mut done, 1).statement())
}
