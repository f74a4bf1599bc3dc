//! A statement and the same statement boxed.
#![tactic(auto)]

ghost use Rattle.std.specs.Prelude.{◌≡◌, false};
ghost use Rattle.sql_schema.specs.Declarations.{Declarations};
ghost use Rattle.sql_dialect.specs.declared.backend.Dialect.{Dialect};
ghost use Rattle.sql_shape.specs.Ids.{has_id};
ghost use Rattle.sql_select.specs.Changes.{boxed_for};
ghost use Rattle.sql_select.specs.Clauses.{Clauses, statement_of};
ghost use Rattle.sql_rules.specs.Rules.{Accepted};
ghost use Rattle.sql_check.specs.Compiled.{binds_of, is_safe_in, sql_of};

/// Where a select statement breaks no rule, neither as it stands nor boxed for the dialect, `into_boxed` leaves its text, its
/// values and its flag as they are, and takes its id away.
pub fn boxing_takes_the_id_alone()
    ensures text { (schema : Declarations) (d : Dialect) (c : Clauses)
        → Accepted schema d (statement_of c) →
        Accepted schema d (boxed_for d (statement_of c))
        → sql_of d (boxed_for d (statement_of c)) ≡ sql_of d (statement_of c) }
    ensures binds { (schema : Declarations) (d : Dialect) (c : Clauses)
        → Accepted schema d (statement_of c) →
        Accepted schema d (boxed_for d (statement_of c))
        → binds_of d (boxed_for d (statement_of c)) ≡ binds_of d (statement_of c) }
    ensures safe { (schema : Declarations) (d : Dialect) (c : Clauses)
        → Accepted schema d (statement_of c) →
        Accepted schema d (boxed_for d (statement_of c))
        → is_safe_in d (boxed_for d (statement_of c)) ≡ is_safe_in d (statement_of c) }
    ensures id { (d : Dialect) (c : Clauses) → has_id (boxed_for d (statement_of c)) ≡ false }
{}
