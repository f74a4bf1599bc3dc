#![tactic(auto, using(hardieflax::proofs::Walking::walking))]

ghost use Rattle.std.specs.Prelude.{◌++◌, codes, refl};
ghost use Rattle.hardieflax.specs.Dialect.TheVariants as D;
ghost use Rattle.hardieflax.specs.Pieces.{one, Text};

use hardieflax::{
    AliasSyntax, ArrayComparison, AstPass, Backend, Combinator, Dialect, DuplicateRule,
    EmptyFromClauseSyntax, ExistsSyntax, Mysql, MysqlQueryBuilder, PassError, QueryFragment,
    SelectStatementSyntax, SqlDialect,
};
use std::alloc::Global;

/// MariaDB, which speaks as MySQL does. What is proved of every backend holds of it.
#[derive(Debug, Clone, Copy, PartialEq, Eq)]
pub struct Maria;

impl SqlDialect for Maria {
    ghost answers_as = { D.Mysql };

    fn supports(&self, combinator: Combinator, rule: DuplicateRule) -> bool {
        Mysql.supports(combinator, rule)
    }

    fn empty_from_clause_syntax(&self) -> EmptyFromClauseSyntax {
        Mysql.empty_from_clause_syntax()
    }

    fn exists_syntax(&self) -> ExistsSyntax {
        Mysql.exists_syntax()
    }

    fn array_comparison(&self) -> ArrayComparison {
        Mysql.array_comparison()
    }

    fn select_statement_syntax(&self) -> SelectStatementSyntax {
        Mysql.select_statement_syntax()
    }

    fn alias_syntax(&self) -> AliasSyntax {
        Mysql.alias_syntax()
    }
}

impl Backend for Maria {
    type QueryBuilder = MysqlQueryBuilder;

    ghost speaks = { D.Mysql };

    fn dialect(&self) -> Dialect {
        Dialect::Mysql
    }

    fn query_builder(&self, alloc: Global) -> MysqlQueryBuilder {
        MysqlQueryBuilder::new(alloc)
    }

    ghost builds = { refl };

    ghost answers = { refl };
}

/// A part in upper case: `UPPER("name")`. It says its pieces and pushes them; text, values and flag follow.
#[derive(Debug, Drop)]
pub struct Upper<T>(pub T);

impl<DB: Backend, T: QueryFragment<DB>> QueryFragment<DB> for Upper<T> {
    ghost pieces = { λ u. one (Text (codes "UPPER(")) ++ (T.pieces u.0 ++ one (Text (codes ")"))) };

    fn walk_ast(&self, pass: &mut AstPass<DB>) -> Result<(), PassError> {
        pass.push_sql("UPPER(")?;
        self.0.walk_ast(pass)?;
        pass.push_sql(")")
    }
}
