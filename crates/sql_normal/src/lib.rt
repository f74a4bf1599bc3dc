//! How a statement's text is read: the tree of each statement, and laws on its text and its values.
//!
//! The functions here do nothing when they run: each carries laws about the definitions in `specs/`.
#![tactic(auto)]

ghost use Rattle.std.specs.Prelude.{◌≡◌, Bool, ◌++◌, length};
ghost use Rattle.sql_dialect.specs.declared.backend.Dialect.{Dialect};
ghost use Rattle.sql_dialect.specs.declared.backend.Dialect.TheVariants.{Pg, Mysql, Sqlite, Bracket};
ghost use Rattle.sql_grammar.specs.Examples.{pg_query, mysql_query, sqlite_query, bracket_query};
ghost use Rattle.sql_grammar.specs.Numbering.{Fills};
ghost use Rattle.sql_grammar.specs.Reading.{OnlyReading};
ghost use Rattle.sql_grammar.specs.Values.{values_query};
ghost use Rattle.sql_pass.specs.Pieces.{text_of, values_of};
ghost use Rattle.sql_leaf.specs.declared.limit_offset.LimitOffsetClause.{LimitOffsetClause};
ghost use Rattle.sql_leaf.specs.declared.locking.LockingClause.TheVariants.{NoLockingClause};
ghost use Rattle.sql_leaf.specs.declared.marks.Marks.{Marks};
ghost use Rattle.sql_node.specs.Pieces.{pieces};
ghost use Rattle.sql_node.specs.Tree.{boxed, unboxed, Expr, list, nullable, Exprs, more_exprs, MaybeExpr, From, Distinct, Order, Statement, select};
ghost use Rattle.sql_normal.specs.Examples.{pg_statement, mysql_statement, sqlite_statement, bracket_statement, pg_text, mysql_text, sqlite_text, bracket_text};
ghost use Rattle.sql_normal.specs.Filled.{trees, filled, normal};
ghost use Rattle.sql_normal.specs.inside.HasText.{HasText, HasNumbers};

/// The text of a statement that has one is read as the statement's normal tree, and as no other tree: whoever takes it apart
/// by the grammar of its dialect finds each name, operand and clause where the statement has it.
pub fn only_reading()
    ensures { (d : Dialect) (s : Statement) → HasText d s
        → HasNumbers d (length (values_of (pieces d s))) →
        OnlyReading d (text_of d 0 (pieces d s)) (normal d s) }
{}

/// The k-th placeholder of the normal tree stands for the k-th value: filled in there, the values give the filled tree, and
/// there are as many values as placeholders.
pub fn filled_by_values()
    ensures fills { (d : Dialect) (s : Statement) → HasText d s →
        Fills (normal d s) (values_of (pieces d s)) (filled d s) }
    ensures as_many { (d : Dialect) (s : Statement) → HasText d s →
        length (values_query (normal d s)) ≡ length (values_of (pieces d s)) }
{}

/// Proves that a filled tree doesn't show whether a selection is the default one, whether the statement is boxed, the marks that
/// calls left, nullables, and lists inside lists.
pub fn leaves_no_trace()
    ensures selects { (d : Dialect) (default other_default : Bool) (e : Expr) (f : From)
        (u : Distinct) (w : MaybeExpr) (o : Order)
        (rows : LimitOffsetClause) (by h : MaybeExpr) (b : Dialect) (all_nullable : Bool)
        (marks other_marks : Marks)
        →
        filled d (select default e f u w o rows by h (boxed b all_nullable) marks)
        ≡ filled d (select other_default e f u w o rows by h (unboxed NoLockingClause) other_marks) }
    ensures nullables { (d : Dialect) (e : Expr) → trees d (nullable e) ≡ trees d e }
    ensures lists { (d : Dialect) (es more : Exprs) →
        trees d (list (more_exprs (list es) more)) ≡ trees d (list es) ++ trees d (list more) }
{}

/// Four whole statements, one in each dialect, with their texts. Their only readings are the grammar's examples.
pub fn worked_statements()
    ensures pg_written { text_of Pg 0 (pieces Pg pg_statement) ≡ pg_text }
    ensures pg_read { OnlyReading Pg pg_text pg_query }
    ensures mysql_written { text_of Mysql 0 (pieces Mysql mysql_statement) ≡ mysql_text }
    ensures mysql_read { OnlyReading Mysql mysql_text mysql_query }
    ensures sqlite_written { text_of Sqlite 0 (pieces Sqlite sqlite_statement) ≡ sqlite_text }
    ensures sqlite_read { OnlyReading Sqlite sqlite_text sqlite_query }
    ensures bracket_written { text_of Bracket 0 (pieces Bracket bracket_statement) ≡ bracket_text }
    ensures bracket_read { OnlyReading Bracket bracket_text bracket_query }
{}
