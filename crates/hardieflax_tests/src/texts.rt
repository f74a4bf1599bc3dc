//! The answers about a text, and about a statement for one tenant.

ghost use Rattle.std.specs.Prelude.{◌≡◌, IfOk, IfErr, IsErrOf, length, map, string_bytes};
ghost use Rattle.hardieflax.specs.AuditReports.{IsRefused, IsReported};
ghost use Rattle.hardieflax.specs.Declarations.{Declarations};
ghost use Rattle.hardieflax.specs.Dialect.{Dialect as DialectName};
ghost use Rattle.hardieflax.specs.PlaceValues.{values_query};
ghost use Rattle.hardieflax.specs.ReadTrees.{HasNoReading, tree_of};
ghost use Rattle.hardieflax.specs.Reading.{OnlyReading};
ghost use Rattle.hardieflax.specs.Refused.{IsRefusal};
ghost use Rattle.hardieflax.specs.ClosedTables.{IsGuardRefusal};
ghost use Rattle.hardieflax.specs.Policies.{AnswersAsCutBy, SeesOnlyBy, guarded_all};
ghost use Rattle.hardieflax.specs.PolicyTrees.{policy_tree};
ghost use Rattle.hardieflax.specs.Restricted.{restricted};
ghost use Rattle.hardieflax.specs.Tenant.{AnswersAsCut, BreaksAtMostTooManyBinds};
ghost use Rattle.hardieflax.specs.Text.{text as text_of};
ghost use Rattle.hardieflax.specs.TreeCounts.{capped};
ghost use Rattle.hardieflax.specs.View.{expr_tree, statement_tree};

use hardieflax::tree::{Comparison, Expression, Query};
use hardieflax::{
    AuditError, AuditReport, Dialect, Expr, MAX_READ_DEPTH, NoMemory, Policy, ReadError,
    RestrictError, Schema, Statement, Table, Tree, audit, placeholders, read, restrict,
    restrict_all, write,
};
use std::alloc::Global;

/// The tree of a text.
pub fn tree(alloc: Global, dialect: Dialect, text: &str) -> Result<Tree, ReadError>
    ensures reading { IfOk result (λ t. OnlyReading dialect text.now (tree_of t)) }
    ensures none { IsErrOf result ReadError.NotInGrammar → HasNoReading dialect text.now }
{
    read(alloc, dialect, text)
}

/// The text of a tree.
pub fn written(alloc: Global, dialect: Dialect, tree: &Tree) -> Result<String, NoMemory>
    ensures { IfOk result (λ s. string_bytes s ≡ text_of dialect (tree_of tree.now)) }
{
    write(alloc, dialect, tree)
}

/// How many placeholders a tree has.
pub fn places(tree: &Tree) -> u64
    ensures { result ≡ capped (length (values_query (tree_of tree.now))) }
{
    placeholders(tree)
}

/// Whether brackets that nest so deep are read.
pub fn may_read(depth: usize) -> bool {
    depth <= MAX_READ_DEPTH
}

fn is_equality(expression: &Expression) -> bool {
    match expression {
        Expression::Compared(Comparison::Equal, _, _) => true,
        _ => false,
    }
}

/// Whether the first thing that a text selects is an equality, as in `SELECT ("a"."x" = $1)`.
pub fn selects_equality(tree: &Tree) -> bool {
    match tree.query() {
        Query::Select(_, first, _, _, _, _, _, _, _, _) => is_equality(first),
        Query::Combined(_, _, _, _, _, _) => false,
    }
}

/// Which tables and columns a text uses.
pub fn report(
    alloc: Global,
    dialect: Dialect,
    schema: &Schema,
    text: &str,
) -> Result<AuditReport, AuditError>
    ensures report { IfOk result (IsReported dialect schema.now.tables text.now) }
    ensures refused { IfErr result (IsRefused dialect schema.now.tables text.now) }
{
    audit(alloc, dialect, schema, text)
}

/// The statement with the predicate beside each leaf of the table.
pub fn restricted_statement(
    alloc: Global,
    statement: &Statement,
    table: &Table,
    predicate: &Expr,
) -> Result<Statement, RestrictError>
    ensures restricted { IfOk result (λ r. statement_tree r
        ≡ restricted table.now (expr_tree predicate.now) (statement_tree statement.now)) }
    ensures exact { IfOk result (λ r. (schema : Declarations) (d : DialectName)
        → BreaksAtMostTooManyBinds schema d (statement_tree statement.now)
        → AnswersAsCut (statement_tree r) (statement_tree statement.now) table.now
        (expr_tree predicate.now)) }
    ensures refused { IfErr result (λ e. IsRefusal e table.now (expr_tree predicate.now)
        (statement_tree statement.now)) }
{
    restrict(alloc, statement, table, predicate)
}

/// The statement with each predicate beside each leaf of its table, at every depth.
pub fn guarded_statement(
    alloc: Global,
    statement: &Statement,
    policies: &[Policy],
) -> Result<Statement, RestrictError>
    ensures guarded { IfOk result (λ r. statement_tree r
        ≡ guarded_all (map policy_tree policies.now) (statement_tree statement.now)) }
    ensures exact { IfOk result (λ r. (schema : Declarations) (d : DialectName)
        → BreaksAtMostTooManyBinds schema d (statement_tree statement.now)
        → AnswersAsCutBy (statement_tree r) (statement_tree statement.now)
        (map policy_tree policies.now)) }
    ensures seen { IfOk result (λ r. (schema : Declarations) (d : DialectName)
        → BreaksAtMostTooManyBinds schema d (statement_tree statement.now)
        → SeesOnlyBy (map policy_tree policies.now) (statement_tree r)) }
    ensures refused { IfErr result (λ e. IsGuardRefusal e (map policy_tree policies.now)
        (statement_tree statement.now)) }
{
    restrict_all(alloc, statement, policies)
}
