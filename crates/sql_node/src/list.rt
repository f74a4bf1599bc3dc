//! Lists of expressions, written flat.
#![tactic(auto, using(sql_pass::proofs::Walking::walking))]

ghost use Rattle.std.specs.Prelude.{◌≡◌, ◌++◌, map, true, false, OnOk};
ghost use Rattle.sql_pass.specs.Commas.{next_of, commas};
ghost use Rattle.sql_pass.specs.Held.{held};
ghost use Rattle.sql_pass.specs.Walks.{Walks};
ghost use Rattle.sql_node.specs.Pieces.{expr_pieces, expr_parts, exprs_parts, spread, still, stays};
ghost use Rattle.sql_node.specs.View.{expr_tree, exprs_of};

use crate::Expr;
use sql_dialect::Backend;
use sql_leaf::COMMA;
use sql_pass::{AstPass, PassError, QueryFragment};
use sql_schema::SqlList;

#[cycle(walk)]
fn walk_next<DB: Backend>(
    first: &mut bool,
    a: &Expr,
    pass: &mut AstPass<DB>,
) -> Result<(), PassError>
    ensures walks { Walks DB.speaks (held DB.QueryBuilder.text DB.QueryBuilder.count pass.old)
        (next_of first.old (expr_pieces DB.speaks (expr_tree a.now))) result
        (held DB.QueryBuilder.text DB.QueryBuilder.count pass.new) }
    ensures first { OnOk result (first.new ≡ false) }
{
    if !*first {
        pass.push_sql(COMMA)?;
    }
    *first = false;
    a.walk_ast(pass)
}

/// Pushes an element, or its elements where it is a list itself.
#[tactic(auto, using(sql_pass::proofs::Walking::walking, crate::proofs::Trees::opens_expr))]
#[cycle(walk)]
fn walk_listed<DB: Backend>(
    first: &mut bool,
    a: &Expr,
    pass: &mut AstPass<DB>,
) -> Result<(), PassError>
    ensures walks { Walks DB.speaks (held DB.QueryBuilder.text DB.QueryBuilder.count pass.old)
        (spread first.old (expr_parts DB.speaks (expr_tree a.now))) result
        (held DB.QueryBuilder.text DB.QueryBuilder.count pass.new) }
    ensures first { OnOk result
        (first.new ≡ still first.old (expr_parts DB.speaks (expr_tree a.now))) }
{
    match a {
        Expr::List(exprs) => walk_list(first, exprs, pass),
        Expr::Nullable(a) => walk_listed(first, a, pass),
        _ => walk_next(first, a, pass),
    }
}

/// Pushes the elements, each after a comma but the first of all.
#[cycle(walk)]
pub(crate) fn walk_list<DB: Backend>(
    first: &mut bool,
    exprs: &SqlList<Expr>,
    pass: &mut AstPass<DB>,
) -> Result<(), PassError>
    ensures walks { Walks DB.speaks (held DB.QueryBuilder.text DB.QueryBuilder.count pass.old)
        (commas first.old (exprs_parts DB.speaks (exprs_of (map expr_tree exprs.now)))) result
        (held DB.QueryBuilder.text DB.QueryBuilder.count pass.new) }
    ensures first { OnOk result
        (first.new ≡ stays first.old (exprs_parts DB.speaks (exprs_of (map expr_tree exprs.now)))) }
{
    let items = exprs.as_slice();
    for expr in items {
        walk_listed(first, expr, pass)?;
    }
    Ok(())
}
