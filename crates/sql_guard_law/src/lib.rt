//! Statements restricted to one tenant, and the law that each answers exactly what the statement itself answers over that tenant's rows.
//!
//! The definitions are in `specs/`, in words in `docs/GUARD.md`. Each function here carries a law about them. None does anything
//! when it runs.
//!
//! The laws are over the meaning alone, so they are proved beside the checker. They are of a guard at every depth (`guarded`), with subselects
//! and groups. Without subselects that is `restricted`, which `restrict` makes. Several policies act in turn, and a database is cut by all of
//! them at once, so their order is of no account.
#![tactic(auto)]

ghost use Rattle.std.specs.Prelude.{◌≡◌, List, []};
ghost use Rattle.sql_schema.specs.Declarations.{Declarations};
ghost use Rattle.sql_schema.specs.declared.declaration.TableDecl.{TableDecl};
ghost use Rattle.sql_dialect.specs.declared.backend.Dialect.{Dialect};
ghost use Rattle.sql_node.specs.Tree.{Expr, Statement};
ghost use Rattle.sql_rules.specs.Lists.{AnyOf, Each};
ghost use Rattle.sql_rules.specs.Scope.{parts};
ghost use Rattle.sql_rows_meaning.specs.Answers.{Answers};
ghost use Rattle.sql_rows_meaning.specs.Frames.{Database};
ghost use Rattle.sql_rows_meaning.specs.Rows.{NullPlaces, Row};
ghost use Rattle.sql_guard_law.specs.Guarded.{guarded};
ghost use Rattle.sql_guard_law.specs.Policies.{AnswersAsCutBy, IsPolicy, LacksPolicy, Policy, SeesOnlyBy, guarded_all, restricted_all};
ghost use Rattle.sql_guard_law.specs.Restricted.{restricted};
ghost use Rattle.sql_guard_law.specs.Tenant.{AnswersAsCut, BreaksAtMostTooManyBinds, HoldsSubselect, IsBlindToOthers, IsOutOfKind, IsPredicate};
ghost use Rattle.sql_guard_law.specs.Worked.{IsOnNeeded};

/// Let a statement break no rule, but perhaps TooManyBinds. Guarded by policies at every depth, subselects included, it answers
/// exactly what it answers itself over the database in which each table has only the rows for which all its predicates are true.
/// COUNT, GROUP BY and HAVING count and group only those.
pub fn guard_is_exact()
    ensures { (schema : Declarations) (d : Dialect) (s : Statement) (qs : List Policy)
        → BreaksAtMostTooManyBinds schema d s → Each IsPolicy qs → AnswersAsCutBy (guarded_all qs s) s qs }
{}

/// Nor does the guarded statement break a rule, but perhaps TooManyBinds: each predicate brings its values.
pub fn guard_keeps_the_rules()
    ensures { (schema : Declarations) (d : Dialect) (s : Statement) (qs : List Policy)
        → BreaksAtMostTooManyBinds schema d s → Each IsPolicy qs
        → BreaksAtMostTooManyBinds schema d (guarded_all qs s) }
{}

/// Where each table that a statement or a subselect in it reads has a policy, nothing but the rows that the policies let be seen
/// matters to its answers: over two databases that have the same ones it answers the same.
pub fn only_seen_rows_matter()
    ensures { (schema : Declarations) (d : Dialect) (s : Statement) (qs : List Policy)
        → BreaksAtMostTooManyBinds schema d s → Each IsPolicy qs → ¬ AnyOf (LacksPolicy qs) (parts [] s)
        → SeesOnlyBy qs (guarded_all qs s) }
{}

/// With one table what is in its other rows does not matter: over two databases that have the same rows for which the predicate
/// is true, and the same other tables, the guarded statement answers the same.
pub fn other_rows_do_not_matter()
    ensures { (schema : Declarations) (d : Dialect) (s : Statement) (t : TableDecl) (p : Expr)
        → BreaksAtMostTooManyBinds schema d s → IsPredicate t p → IsBlindToOthers (guarded t p s) t p }
{}

/// The laws above are of something: over every database, whether or not it conforms to the schema, the guarded statement has an
/// answer.
pub fn guarded_statements_have_answers()
    ensures { (schema : Declarations) (d : Dialect) (s : Statement) (qs : List Policy)
        → BreaksAtMostTooManyBinds schema d s → Each IsPolicy qs
        → (places : NullPlaces) (db : Database) → (answer : List Row) × Answers places (guarded_all qs s) db [] answer }
{}

/// A statement without subselects is guarded at every depth where it is restricted itself.
pub fn without_subselects_restricting_is_enough()
    ensures { (s : Statement) (qs : List Policy) → Each IsPolicy qs → ¬ AnyOf HoldsSubselect (parts [] s)
        → guarded_all qs s ≡ restricted_all qs s }
{}

/// So a statement that has no subselect, and no aggregate and no grouping either, answers with a predicate beside each leaf of a
/// table exactly what it answers itself over the database in which that table has only the rows for which the predicate is true.
pub fn restriction_is_exact()
    ensures { (schema : Declarations) (d : Dialect) (s : Statement) (t : TableDecl) (p : Expr)
        → BreaksAtMostTooManyBinds schema d s → ¬ AnyOf IsOutOfKind (parts [] s) → IsPredicate t p
        → AnswersAsCut (restricted t p s) s t p }
{}

/// Nor does the statement with the predicates break a rule, but perhaps TooManyBinds.
pub fn restriction_keeps_the_rules()
    ensures { (schema : Declarations) (d : Dialect) (s : Statement) (t : TableDecl) (p : Expr)
        → BreaksAtMostTooManyBinds schema d s → ¬ AnyOf IsOutOfKind (parts [] s) → IsPredicate t p
        → BreaksAtMostTooManyBinds schema d (restricted t p s) }
{}

/// Where the predicate goes matters. Of `users` left join `posts` it goes into ON, and the answers are exact; in WHERE it would
/// drop the users who have no post of that tenant.
pub fn on_is_needed()
    ensures { IsOnNeeded }
{}
