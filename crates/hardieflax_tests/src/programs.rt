//! The program as a call, and the queries of its documents.

ghost use Rattle.std.specs.Prelude.{◌≡◌, IfOk, IfSome, List, Some, map, option_map, string_bytes, ℕ};
ghost use Rattle.std.specs.Io.KnownBytes.{Appends, IsAtEnd};
ghost use Rattle.hardieflax.specs.Causes.{HasRisen};
ghost use Rattle.hardieflax.specs.Command.{Command as CommandName};
ghost use Rattle.hardieflax.specs.Commands.{IsDone, command_of};
ghost use Rattle.hardieflax.specs.Documents.{schema_in};
ghost use Rattle.hardieflax.specs.Giving.{Gives};
ghost use Rattle.hardieflax.specs.QueryStatements.{expr_in, statement_in};
ghost use Rattle.hardieflax.specs.Runs.{Outcome, Took};
ghost use Rattle.hardieflax.specs.SyntaxForm.TheVariants.{Select};
ghost use Rattle.hardieflax.specs.SyntaxForms.{stand};
ghost use Rattle.hardieflax.specs.SyntaxViews as syntax;
ghost use Rattle.hardieflax.specs.View.{expr_tree, statement_tree};

use hardieflax::documents::{Refusal, read_schema};
use hardieflax::program::{Sink, Source, Status, run};
use hardieflax::syntax::{
    Call, Expr as WrittenExpr, Query, all_stand, expression, is_expr_too_deep, is_too_deep,
    is_too_deep_restricted, is_too_deep_with, statement, statement_to_restrict,
};
use hardieflax::{Dialect, Expr, NoMemory, Schema, Statement};
use std::alloc::Global;

/// Runs the program with these words.
pub fn ran<S: Source, K: Sink>(alloc: Global, words: &[String], from: &mut S, to: &mut K) -> Status
    ensures headline { result ≡ Status.Done → IfSome (S.left from.old) (λ input.
        (c : CommandName) × (command_of (map string_bytes words.now) ≡ Some c)
        × IsDone c input (IsAtEnd (S.left from.new))
        (λ text. Appends (K.held to.old) (K.held to.new) text)) }
    ensures outcome { (given written : List ℕ)
        × Took result (S.left from.old) (S.left from.new) given
        × Appends (K.held to.old) (K.held to.new) written
        × Outcome result (command_of (map string_bytes words.now)) given written
        (IsAtEnd (S.left from.new)) }
    ensures read_fault { result ≡ Status.ReadFault
        → HasRisen (S.faults from.old) (S.faults from.new) }
{
    run(alloc, words, from, to)
}

/// The statement of a query, where its names are the schema's.
pub fn statement_of(
    alloc: Global,
    schema: &Schema,
    dialect: Dialect,
    query: &Query,
) -> Result<Option<Statement>, NoMemory>
    ensures { IfOk result (λ o. option_map statement_tree o
        ≡ statement_in schema.now dialect (syntax.query_tree query.now)) }
{
    statement(alloc, schema, dialect, query)
}

/// The same, of a query whose statement a guard restricts.
pub fn statement_to_restrict_of(
    alloc: Global,
    schema: &Schema,
    dialect: Dialect,
    query: &Query,
) -> Result<Option<Statement>, NoMemory>
    ensures { IfOk result (λ o. option_map statement_tree o
        ≡ statement_in schema.now dialect (syntax.query_tree query.now)) }
{
    statement_to_restrict(alloc, schema, dialect, query)
}

/// The same of an expression.
pub fn expression_of(
    alloc: Global,
    schema: &Schema,
    dialect: Dialect,
    expr: &WrittenExpr,
) -> Result<Option<Expr>, NoMemory>
    ensures { IfOk result (λ o. option_map expr_tree o
        ≡ expr_in schema.now dialect (syntax.expr_tree expr.now)) }
{
    expression(alloc, schema, dialect, expr)
}

/// Whether each call stands after those before it.
pub fn stands(calls: &[Call]) -> bool
    ensures { result ≡ stand Select (syntax.calls_of (map syntax.call_tree calls.now)) }
{
    all_stand(calls)
}

/// Whether a query nests too deep to be built.
pub fn is_deep(query: &Query) -> bool {
    is_too_deep(query)
}

/// Whether its statement nests too deep once a guard restricts it.
pub fn is_deep_restricted(query: &Query) -> bool {
    is_too_deep_restricted(query)
}

/// Whether it does so with so many levels more.
pub fn is_deep_with(query: &Query, more: usize) -> bool {
    is_too_deep_with(query, more)
}

/// The same of an expression.
pub fn is_deep_expression(expr: &WrittenExpr) -> bool {
    is_expr_too_deep(expr)
}

/// Returns the schema of a document.
pub fn schema_of_document(alloc: Global, bytes: &[u8]) -> Result<Schema, Refusal>
    ensures { Gives (λ s. s) result (schema_in bytes.now) }
{
    read_schema(alloc, bytes)
}
