//! The types of a statement's columns, and whether it is ill-typed or holds an empty list, by one loop from the last
//! node to the first. Each node takes what its children have from the stack (`sql_flat_law`), and puts what it has.
//! Of the list that `sql_flat` shows, with `-` for what has no type, the stack from the top on:
//!
//! ```text
//! 7  Value 1              Integer
//! 6  Column "users"."id"  Integer, Integer
//! 5  Compared =           Bool
//! 4  Where                -
//! 3  Table "users"        -, -
//! 2  From                 -, -
//! 1  Column "users"."id"  Integer, -, -
//! 0  Select               (Integer): the types of its columns
//! ```
#![tactic(auto, using(sql_flat_law::proofs::Finishing::finished_push))]

ghost use Rattle.std.specs.Prelude.{◌≡◌, [], ◌∷◌, ◌||◌, IfOk, OnOk};
ghost use Rattle.std.specs.Bool.{Decides};
ghost use Rattle.sql_schema.specs.Declarations.{Declarations};
ghost use Rattle.sql_dialect.specs.declared.backend.Dialect.{Dialect};
ghost use Rattle.sql_flat_law.specs.Rose.{flat};
ghost use Rattle.sql_node.specs.Tree.{Expr, Statement};
ghost use Rattle.sql_rules.specs.Rules.{Broken, IsBool};
ghost use Rattle.sql_rules.specs.Types.{columns as columns_of, type_of};
ghost use Rattle.sql_rules.specs.declared.rule.Rule.TheVariants as rule;
ghost use Rattle.sql_flat.specs.Flat.{expr_rose, flat_node, flat_of};
ghost use Rattle.sql_rules_check.specs.inside.Lists.{any_empty_from, any_ill_from, typed_from};
ghost use Rattle.sql_rules_check.specs.inside.Stacks.{split, stack};
ghost use Rattle.sql_rules_check.specs.inside.Typing.{empty as is_empty, ill, typing};

use crate::given::{Given, Judged};
use crate::judging::judged_at;
use crate::stack::{leave, next, next_type};
use crate::types::is_condition;
use sql_flat::{Flat, FlatNode};
use sql_flat_law::Finished;
use sql_schema::{NoMemory, SqlType};
use std::alloc::Global;

/// The types of a statement's columns, and whether an expression is ill-typed or a list has no element.
#[derive(Debug, Drop)]
pub(crate) struct Typed {
    pub columns: Vec<Option<SqlType>>,
    pub mismatched: bool,
    pub empty: bool,
}

/// The results for the nodes that the loop has passed.
#[derive(Debug, Drop)]
struct Found {
    done: Vec<Finished<Given>>,
    mismatched: bool,
    empty: bool,
}

/// Puts what a node has in the place of what its children have.
fn put(alloc: Global, index: usize, node: &FlatNode, found: &mut Found) -> Result<(), NoMemory>
    ensures done { OnOk result (stack found.new.done.items
        ≡ (index, typing node.now.kind (split node.now.end found.old.done.items).0)
        ∷ (split node.now.end found.old.done.items).1) }
    ensures mismatched { OnOk result (found.new.mismatched
        ≡ (ill node.now.kind (split node.now.end found.old.done.items).0 || found.old.mismatched)) }
    ensures empty { OnOk result (found.new.empty
        ≡ (is_empty node.now.kind (split node.now.end found.old.done.items).0 || found.old.empty)) }
{
    let Judged {
        given,
        mismatched,
        empty,
    } = judged_at(alloc, &node.kind, &mut found.done, node.end)?;
    leave(&mut found.done, node.end);
    found.done.push(Finished {
        start: index,
        value: given,
    })?;
    found.mismatched = mismatched || found.mismatched;
    found.empty = empty || found.empty;
    Ok(())
}

/// Returns the results for the nodes from the first on.
fn judge_each(alloc: Global, nodes: &[FlatNode]) -> Result<Found, NoMemory>
    ensures done { IfOk result (λ f. stack f.done.items ≡ typed_from 0 nodes.now) }
    ensures mismatched { IfOk result (λ f. f.mismatched ≡ any_ill_from 0 nodes.now) }
    ensures empty { IfOk result (λ f. f.empty ≡ any_empty_from 0 nodes.now) }
{
    let mut found = Found {
        done: Vec::new(alloc),
        mismatched: false,
        empty: false,
    };
    let mut index = nodes.len();
    while index > 0 {
        index -= 1;
        put(alloc, index, &nodes[index], &mut found)?;
    }
    Ok(found)
}

#[tactic(auto, using(crate::proofs::Rooted::root))]
/// The types of the columns of the statement whose flat list this is, from left to right; whether an expression in it
/// has no type, a value does not fit its own or a condition is not Bool; and whether a list in it has no element. Of
/// `SELECT "users"."id" FROM "users" WHERE ("users"."id" = $1)` the columns are one, an integer, and both flags are
/// false. One pass over the nodes. Fails only for memory.
pub(crate) fn types_of_flat(alloc: Global, flat: &Flat) -> Result<Typed, NoMemory>
    ensures columns { (s : Statement) → flat.now ≡ flat_of s
        → IfOk result (λ t. t.columns.items ≡ columns_of s) }
    ensures mismatched { (s : Statement) → flat.now ≡ flat_of s
        → (schema : Declarations) (d : Dialect)
        → IfOk result (λ t. Decides t.mismatched (Broken rule.TypeMismatch schema d s)) }
    ensures empty { (s : Statement) → flat.now ≡ flat_of s → (schema : Declarations) (d : Dialect)
        → IfOk result (λ t. Decides t.empty (Broken rule.EmptyList schema d s)) }
{
    let Found {
        mut done,
        mismatched,
        empty,
    } = judge_each(alloc, flat.nodes())?;
    let columns = next(&mut done, 1).into_types(alloc)?;
    Ok(Typed {
        columns,
        mismatched,
        empty,
    })
}

/// Whether the expression whose nodes these are is a condition: whether its type is Bool, nullable or not. Of `("users"."id" = $1)` it
/// is. One pass over the nodes. Fails only for memory.
#[tactic(auto, using(sql_flat_law::proofs::Finishing::finished_push))]
pub fn is_condition_of(alloc: Global, nodes: &[FlatNode]) -> Result<bool, NoMemory>
    ensures { (e : Expr) → nodes.now ≡ flat flat_node 0 (expr_rose e) []
        → IfOk result (λ b. Decides b (IsBool (type_of e))) }
{
    let Found {
        mut done,
        mismatched: _,
        empty: _,
    } = judge_each(alloc, nodes)?;
    Ok(is_condition(next_type(&mut done, 1)))
}
