ghost use Rattle.std.specs.Prelude.{◌≡◌, [], IfOk, OnOk};
ghost use Rattle.sql_node.specs.Tree as t;
ghost use Rattle.sql_node.specs.Tree.{under};
ghost use Rattle.sql_node.specs.View.{expr_tree, statement_tree};
ghost use Rattle.sql_flat_law.specs.Building.{Adds};
ghost use Rattle.sql_flat_law.specs.Rose.{flat, one};
ghost use Rattle.sql_flat.specs.Flat.{expr_rose, flat_node, flat_of};

use crate::building::{close, open};
use crate::expr::push_expr;
use crate::statement::push_statement;
use crate::{FlatKind, FlatNode};
use sql_node::{Expr, Statement};
use sql_schema::NoMemory;
use std::alloc::Global;
use std::marker::Model;

/// How many nodes a list has room for at first: most statements have fewer.
const ROOM: usize = 16;

/// The flat list of a statement: its nodes, each before its children, with all their values. Only `flatten` makes one, so it always
/// is the list of a statement.
#[derive(Debug, Drop)]
pub struct Flat {
    nodes: Vec<FlatNode>,
}

impl Model for Flat {
    ghost use Rattle.std.specs.Prelude.{◌≡◌, List};
    ghost use Rattle.sql_node.specs.Tree.{Statement};
    ghost use Rattle.sql_flat.specs.Flat.{flat_of};
    ghost use Rattle.sql_flat.specs.declared.kind.FlatNode.{FlatNode};

    ghost Value = { List FlatNode };

    ghost view = { λ f. f.nodes.items };

    ghost invariant = { λ f. (s : Statement) × (f.nodes.items ≡ flat_of s) };
}

/// The flat list of the statement: its nodes in the order in which they are written, each before its children and with the index after
/// its last descendant. `SELECT "users"."id" FROM "users" WHERE ("users"."id" = $1)` has the nodes Select, Column, From, Table, Where,
/// Compared, Column, Value with the ends 8, 2, 4, 4, 8, 8, 7, 8. Fails only for memory.
#[tactic(auto, using(sql_flat_law::proofs::Adding::alone))]
pub fn flatten(alloc: Global, statement: &Statement) -> Result<Flat, NoMemory>
    ensures { IfOk result (λ f. f ≡ flat_of (statement_tree statement.now)) }
{
    let mut nodes = Vec::with_capacity(alloc, ROOM)?;
    push_statement(alloc, statement, &mut nodes)?;
    Ok(Flat { nodes })
}

impl Flat {
    /// Its nodes, borrowed. The first child of a node is the next node, where the node's end is greater than that index, and the next
    /// sibling of a node is at its end.
    pub fn nodes(&self) -> &[FlatNode]
        ensures nodes { result.now ≡ self.now }
        // Every flat list is that of a statement.
        ensures statement { (s : t.Statement) × (self.now ≡ flat_of s) }
    {
        self.nodes.as_slice()
    }
}

/// Pushes an expression under so many nullables.
#[tactic(auto, using(sql_flat_law::proofs::Adding::adding))]
fn push_under(
    alloc: Global,
    nullables: usize,
    expr: &Expr,
    nodes: &mut Vec<FlatNode>,
) -> Result<(), NoMemory>
    ensures { OnOk result
        (Adds flat_node nodes.old.items (one (expr_rose (under nullables (expr_tree expr.now))))
        nodes.new.items) }
{
    if nullables == 0 {
        return push_expr(alloc, expr, nodes);
    }
    let at = open(nodes, FlatKind::Nullable)?;
    push_under(alloc, nullables - 1, expr, nodes)?;
    close(nodes, at);
    Ok(())
}

/// The nodes of an expression under so many nullables, in the order of a flat list: `("users"."id" = $1)` has Compared, Column, Value
/// with the ends 3, 2, 3. Fails only for memory.
#[tactic(auto, using(sql_flat_law::proofs::Adding::alone))]
pub fn expression_nodes(
    alloc: Global,
    nullables: usize,
    expr: &Expr,
) -> Result<Vec<FlatNode>, NoMemory>
    ensures { IfOk result (λ v. v.items
        ≡ flat flat_node 0 (expr_rose (under nullables (expr_tree expr.now))) []) }
{
    let mut nodes = Vec::new(alloc);
    push_under(alloc, nullables, expr, &mut nodes)?;
    Ok(nodes)
}
