//! The answers that a statement may give over a database, and the law that the types of its columns are right, NULL included.
//!
//! The definitions are in `specs/`, in words in `docs/MEANING.md`. Each function here carries laws about them. None does anything
//! when it runs.
//!
//! The meaning needs the definitions of the rules and not the checker, so its laws are proved beside `sql_rules_check`; `sql_rows` joins the
//! two.
//!
//! A database is a function of a table's declaration, and a value in a row is found by its column's whole declaration. So no table is looked
//! up by name, and no premise says that names differ.
//!
//! Where NULL comes in an order is a choice for each direction (`NullPlaces`), the same in all orders of a statement and its subselects:
//! servers differ, and the laws hold for all four choices. Texts compare byte by byte. A server's collation is another order, and the types
//! fit all the same.
//!
//! The columns of a group are read in one row of it, any, for all of them: one row for each column could pair values that no row has. An
//! aggregate in ON, which the rule Grouping lets pass, counts one row.
//!
//! DISTINCT keeps the first of each key of rows in any order. The definition is a line, and that it is any one row of each key is a law
//! (`first_is_any`). DISTINCT ON sorts all lines first and then leaves the first of each key, as PostgreSQL does. That this is the least by
//! the order is a law (`first_by_the_order_is_left`), so the definition asks nothing of the order of values.
#![tactic(auto)]

ghost use Rattle.std.specs.Prelude.{◌≡◌, ◌↔◌, List, [], Some, map};
ghost use Rattle.sql_schema.specs.Declarations.{Declarations};
ghost use Rattle.sql_schema.specs.declared.types.SqlType.{SqlType};
ghost use Rattle.sql_dialect.specs.declared.backend.Dialect.{Dialect};
ghost use Rattle.sql_node.specs.Tree.{Statement};
ghost use Rattle.sql_rules.specs.Rules.{Accepted};
ghost use Rattle.sql_rules.specs.Types.{columns};
ghost use Rattle.sql_rows_meaning.specs.Answers.{Answers};
ghost use Rattle.sql_rows_meaning.specs.Beside.{ExceptionIsNeeded};
ghost use Rattle.sql_rows_meaning.specs.Counted.{IsCounted};
ghost use Rattle.sql_rows_meaning.specs.DistinctOn.{FirstIsShown};
ghost use Rattle.sql_rows_meaning.specs.Example.{HasTwoAnswers};
ghost use Rattle.sql_rows_meaning.specs.Fitting.{AnswersFit};
ghost use Rattle.sql_rows_meaning.specs.Frames.{Database, Frame};
ghost use Rattle.sql_rows_meaning.specs.LastWriter.{HasLastWriter};
ghost use Rattle.sql_rows_meaning.specs.Needed.{ExampleIsAccepted, RuleIsNeeded};
ghost use Rattle.sql_rows_meaning.specs.Rows.{NullPlaces, Row};
ghost use Rattle.sql_rows_meaning.specs.Ungrouped.{IsUngrouped, RowAnswers};
ghost use Rattle.sql_rows_meaning.specs.Worked.{AreWorked, FirstIsAny, FirstIsLeft};

/// A statement that breaks no rule answers, over every database that conforms, only rows that fit the types of its columns: a
/// column whose type is not nullable never gives NULL. COUNT gives a number, also where it counts nothing.
pub fn types_are_sound()
    ensures { (schema : Declarations) (d : Dialect) (s : Statement) (types : List SqlType)
        → Accepted schema d s → map Some types ≡ columns s → AnswersFit schema s types }
{}

/// With two users and one post, `users` left join `posts` answers two rows in either order, and no other list.
pub fn left_join_has_two_answers()
    ensures { HasTwoAnswers }
{}

/// The laws are of something: the example's declarations make a schema, its database conforms, its statement breaks no rule.
pub fn the_example_is_accepted()
    ensures { ExampleIsAccepted }
{}

/// Without the rule NeedsNullable the types would not be right: here is a statement that breaks it alone, and an answer that does
/// not fit.
pub fn needs_nullable_is_needed()
    ensures { RuleIsNeeded }
{}

/// Proves that statements that count beside their columns have to be left out: here is a boxed one that breaks no rule and counts in
/// its order alone, `SELECT "users"."id" FROM "users" ORDER BY COUNT(*)`, and over empty tables it answers a NULL that does not fit.
pub fn counting_beside_is_no_promise()
    ensures { ExceptionIsNeeded }
{}

/// The last of the users who have a post is an answer: a condition on a subselect that sees the outer row, an order and a limit.
pub fn last_writer_is_an_answer()
    ensures { HasLastWriter }
{}

/// Proves what operators give on NULL, and what orders, cuts and combinations give on small lists.
pub fn operators_work()
    ensures { AreWorked }
{}

/// `DISTINCT` may leave any one row of those that are equal: the first of each key, rows being in any order, is any one of each
/// key, in any order.
pub fn first_is_any()
    ensures { FirstIsAny }
{}

/// `DISTINCT ON` with an order leaves the first row by that order of each key, as PostgreSQL does: no row of its key comes before
/// it. What is left is in that order too, so each answer is one of those where any row of each key may be left.
pub fn first_by_the_order_is_left()
    ensures { FirstIsLeft }
{}

/// Each answer of a statement with `DISTINCT ON` and an order keeps of each set of rows that it takes for equal the first row by that
/// order: `SELECT DISTINCT ON (a) a, b FROM t ORDER BY a, b` shows the least `b` of each `a`. Where no two rows of a set tie, that one
/// comes before every other row of its set.
pub fn distinct_on_keeps_the_first()
    ensures { (schema : Declarations) (d : Dialect) (s : Statement) → Accepted schema d s → FirstIsShown schema s }
{}

/// Where nothing is grouped or counted, the answers are those of each row by itself.
pub fn ungrouped_answers_are_the_same()
    ensures { (places : NullPlaces) (s : Statement) → IsUngrouped s → (db : Database) (outer : Frame) (answer : List Row)
        → Answers places s db outer answer ↔ RowAnswers places s db outer answer }
{}

/// The laws are of something: a statement that breaks no rule has an answer over every database, whether or not that conforms,
/// wherever NULL comes in orders.
pub fn accepted_statements_have_answers()
    ensures { (schema : Declarations) (d : Dialect) (s : Statement) → Accepted schema d s
        → (places : NullPlaces) (db : Database) → (answer : List Row) × Answers places s db [] answer }
{}

/// User 1 has one post and user 2 none, and there are two rows: counted by user, and in all.
pub fn posts_are_counted()
    ensures { IsCounted }
{}
