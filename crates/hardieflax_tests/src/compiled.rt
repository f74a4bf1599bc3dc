//! The answers about a statement: its text, the rules that it breaks, its flat list and its keys.

ghost use Rattle.std.specs.Prelude.{◌≡◌, ◌+◌, ◌*◌, ◌≤◌, [], IfOk, IfErr, Some, length};
ghost use Rattle.hardieflax.specs.AnswerFitting.{AnswersFit};
ghost use Rattle.hardieflax.specs.Compiled.{IsBuilt, IsLeast, IsRead};
ghost use Rattle.hardieflax.specs.Dialect.TheVariants.{Pg as PgDialect};
ghost use Rattle.hardieflax.specs.Entries.{IsNext};
ghost use Rattle.hardieflax.specs.Errors.{rule_of};
ghost use Rattle.hardieflax.specs.Fitting.{values_fit as values_fit_in};
ghost use Rattle.hardieflax.specs.FlatLists.{expr_rose, flat_node, flat_of};
ghost use Rattle.hardieflax.specs.Fused.{IsFused};
ghost use Rattle.hardieflax.specs.Ids.{has_id};
ghost use Rattle.hardieflax.specs.Keys.{id_of};
ghost use Rattle.hardieflax.specs.KnownNames.TheVariants.{Known};
ghost use Rattle.hardieflax.specs.QueryStatements.{statement_in};
ghost use Rattle.hardieflax.specs.Rose.{flat};
ghost use Rattle.hardieflax.specs.Rule.TheVariants.{UnknownName};
ghost use Rattle.hardieflax.specs.Rule.{Rule as RuleName};
ghost use Rattle.hardieflax.specs.RuleLists.{Selects};
ghost use Rattle.hardieflax.specs.Rules.{Broken, all_rules};
ghost use Rattle.hardieflax.specs.SyntaxViews.{query_tree};
ghost use Rattle.hardieflax.specs.Tree as tree;
ghost use Rattle.hardieflax.specs.Tree.{under};
ghost use Rattle.hardieflax.specs.View.{expr_tree, statement_tree};

use hardieflax::syntax::{Query, statement};
use hardieflax::{
    Backend, BindError, Built, CompileError, Dialect, Expr, Flat, FlatNode, FusedAnswer, Names,
    NoMemory, Pg, QueryId, QueryKey, Rule, Schema, Statement, StatementCache, Steps, Unflatten,
    broken, built_statements_know_their_names, compile, compile_by, compile_flat_by, compile_sound,
    compile_sound_by, expression_nodes, flat_query_id, flatten, fused, values_fit,
};
use std::alloc::Global;
use std::sync::ledger::Ledger;

/// The text of a statement that breaks no rule, or the first rule that it breaks.
pub fn compiled<DB: Backend>(
    alloc: Global,
    backend: &DB,
    schema: &Schema,
    statement: &Statement,
) -> Result<Built, CompileError>
    ensures built { IfOk result (λ b. IsBuilt schema.now DB.speaks (statement_tree statement.now)
        b) }
    ensures read { IfOk result (λ b. IsRead DB.speaks (statement_tree statement.now)
        b.sql b.binds) }
    ensures refused { IfErr result (λ e. (r : RuleName) → rule_of e ≡ Some r
        → IsLeast r schema.now DB.speaks (statement_tree statement.now)) }
{
    compile(alloc, backend, schema, statement)
}

/// Compiles a query of a document. Its names are the schema's, so none is looked up again.
pub fn compiled_query(alloc: Global, schema: &Schema, query: &Query) -> Result<Built, CompileError>
    ensures built { IfOk result (λ b. (s : tree.Statement)
        × (statement_in schema.now PgDialect (query_tree query.now) ≡ Some s)
        × IsBuilt schema.now PgDialect s b) }
{
    match statement(alloc, schema, Dialect::Pg, query)? {
        None => Err(CompileError::UnknownName),
        Some(statement) => {
            built_statements_know_their_names();
            compile_by(alloc, Names::Known, &Pg, schema, &statement)
        }
    }
}

/// The same of a flat list.
pub fn compiled_list<DB: Backend>(
    alloc: Global,
    backend: &DB,
    schema: &Schema,
    list: &Flat,
) -> Result<Built, CompileError>
    ensures { IfOk result (λ b. (s : tree.Statement) → list.now ≡ flat_of s
        → IsBuilt schema.now DB.speaks s b) }
{
    compile_flat_by(alloc, Names::Asked, backend, schema, list)
}

/// The same, with column types that are right for NULL.
pub fn compiled_soundly<DB: Backend>(
    alloc: Global,
    backend: &DB,
    schema: &Schema,
    statement: &Statement,
) -> Result<Built, CompileError>
    ensures { IfOk result (λ b. AnswersFit schema.now (statement_tree statement.now) b.sql_types) }
{
    compile_sound(alloc, backend, schema, statement)
}

/// The same, where the caller says whether names are looked up.
pub fn compiled_soundly_by<DB: Backend>(
    alloc: Global,
    names: Names,
    backend: &DB,
    schema: &Schema,
    statement: &Statement,
) -> Result<Built, CompileError>
    requires { names ≡ Known
        → ¬ Broken UnknownName schema.now DB.speaks (statement_tree statement.now) }
    ensures { IfOk result (λ b. AnswersFit schema.now (statement_tree statement.now) b.sql_types) }
{
    compile_sound_by(alloc, names, backend, schema, statement)
}

/// The same, through a cache.
pub fn compiled_again<DB: Backend>(
    alloc: Global,
    cache: &mut StatementCache,
    backend: &DB,
    statement: &Statement,
) -> Result<Built, CompileError>
    ensures built { IfOk result (λ b.
        IsBuilt cache.old.schema DB.speaks (statement_tree statement.now) b) }
    ensures entries { IsNext DB.speaks (statement_tree statement.now) cache.old result cache.new }
{
    cache.compile_cached(alloc, backend, statement)
}

/// All rules that a statement breaks.
pub fn broken_rules<DB: Backend>(
    alloc: Global,
    backend: &DB,
    schema: &Schema,
    statement: &Statement,
) -> Result<Vec<Rule>, NoMemory>
    ensures { IfOk result (λ v. Selects
        (λ r. Broken r schema.now DB.speaks (statement_tree statement.now)) all_rules v.items) }
{
    broken(alloc, backend, schema, statement)
}

/// Whether the values of a statement fit.
pub fn fits(statement: &Statement) -> bool
    ensures { result ≡ values_fit_in (statement_tree statement.now) }
{
    values_fit(statement)
}

/// The flat list of a statement.
pub fn list_of(alloc: Global, statement: &Statement) -> Result<Flat, NoMemory>
    ensures { IfOk result (λ f. f ≡ flat_of (statement_tree statement.now)) }
{
    flatten(alloc, statement)
}

/// The statement of a flat list.
pub fn statement_of<F: Unflatten>(alloc: Global, list: &F) -> Result<Statement, NoMemory>
    ensures { IfOk result (λ s. flat_of (statement_tree s) ≡ F.list list.now) }
{
    list.unflatten(alloc)
}

/// Text, values, flag and key of a flat list.
pub fn told<DB: Backend, L: Ledger>(
    alloc: Global,
    backend: &DB,
    list: &Flat,
    steps: &mut Steps<L>,
) -> Result<FusedAnswer, BindError>
    ensures fused { IfOk result (λ a. (s : tree.Statement) → list.now ≡ flat_of s
        → IsFused DB.speaks s a) }
    ensures cost { steps.new ≤ steps.old + 2 * length list.now }
{
    fused(alloc, backend, list, steps)
}

/// Whether a query has an id.
pub fn has_key<Q: QueryId>(query: &Q) -> bool
    ensures { result ≡ has_id (Q.tree query.now) }
{
    query.has_query_id()
}

/// The key of a flat list, where it has one.
pub fn list_key(alloc: Global, list: &Flat) -> Result<Option<QueryKey>, NoMemory>
    ensures { IfOk result (λ k. (s : tree.Statement) → list.now ≡ flat_of s → k ≡ id_of s) }
{
    flat_query_id(alloc, list)
}

/// The nodes of an expression as it stands.
pub fn nodes(alloc: Global, expr: &Expr) -> Result<Vec<FlatNode>, NoMemory>
    ensures { IfOk result (λ v. v.items
        ≡ flat flat_node 0 (expr_rose (under 0 (expr_tree expr.now))) []) }
{
    expression_nodes(alloc, 0, expr)
}
