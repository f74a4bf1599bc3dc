//! A law on the statements that queries stand for.
//!
//! The function carries a law about the definitions in `specs/` of the crates below. It does nothing when it runs.
//!
//! A caller of this law may tell the checker that the names are known (`Names::Known`), and they are not looked up again: to compare each
//! column's declaration of its table with the schema's takes the width of the table for each column. Statements that a guard made or that a
//! number determines do not come from a query, so their names are looked up.
#![tactic(auto)]

ghost use Rattle.std.specs.Prelude.{◌≡◌, Some};
ghost use Rattle.sql_schema.specs.Declarations.{Declarations};
ghost use Rattle.sql_dialect.specs.declared.backend.Dialect.{Dialect};
ghost use Rattle.sql_node.specs.Tree.{Statement};
ghost use Rattle.sql_build_syntax.specs.Tree.{Query};
ghost use Rattle.sql_build.specs.Built.{statement_in};
ghost use Rattle.sql_rules.specs.Rules.{Broken};
ghost use Rattle.sql_rules.specs.declared.rule.Rule.TheVariants.{UnknownName};

/// The statement that a query stands for over a schema names only what the schema declares: each table of its sources
/// is the schema's, and each of its columns is one of its table's, in subselects too. So it never breaks UnknownName
/// there, in any dialect.
pub fn built_statements_know_their_names()
    ensures { (schema : Declarations) (given d : Dialect) (q : Query) (s : Statement)
        → statement_in schema given q ≡ Some s
        → ¬ Broken UnknownName schema d s }
{}
