//! SELECT statements as values: built by diesel's calls, checked by fourteen rules, written for each dialect.
//!
//! This crate has no code of its own. It re-exports what users of the library crates name, so that a program names one crate;
//! `specs/Lib.antt` does the same for the words of their contracts. A schema is declared by `SchemaBuilder`, a statement built by
//! the calls of `QueryDsl`, and `compile` gives its text and values, or the first rule that it breaks.
//!
//! Three modules hold what has a name that is taken at the root: `tree`, `syntax` and `program`. `proofs/` has the lemmas for parts of a
//! user's own and for code that matches nodes. In `crates.txt` a crate that uses this one lists the libraries too: with `hardieflax` alone a
//! check of clauses over expressions ends with "no module that this path begins with is at hand".
#![tactic(auto)]

// Schemas, types, texts and lists.
pub use sql_schema::{
    Base, Column, ColumnDecl, JoinableDecl, NoMemory, Schema, SchemaBuilder, SchemaError,
    SizeRestrictedColumn, SqlBytes, SqlList, SqlText, SqlType, Table, TableDecl, TableNotEqual,
    equality_is_equality,
};

// Dialects, backends and builders.
pub use sql_dialect::{
    AggregateFunctionExpressions, AliasSyntax, ArrayComparison, Backend, BatchInsertSupport,
    BindError, Bracket, BracketQueryBuilder, BuiltInWindowFunctionRequireOrder, Combinator,
    ConcatClause, DefaultValueClauseForInsert, Dialect, DuplicateRule, EmptyFromClauseSyntax,
    ExistsSyntax, InsertWithDefaultKeyword, Mysql, MysqlQueryBuilder, OnConflictClause, Pg,
    PgQueryBuilder, QueryBuilder, ReturningClause, SelectStatementSyntax, SqlDialect, Sqlite,
    SqliteQueryBuilder, WindowFrameClauseGroupSupport, WindowFrameExclusionSupport, quote_name,
    quoted_names_differ,
};

// Values, fragments, passes and the collector of bytes.
pub use sql_pass::{
    AstPass, BindCollector, BindType, Binds, Bound, BoundRef, CollectError, Identifier, InfixNode,
    MiddleFragment, OnKeyword, ParenthesisWrapper, PassError, QueryFragment, RawBytesBindCollector,
    ToSql, Value, debug_binds, push_dotted, push_side_open,
};

// Expressions, sources, clauses and statements.
pub use sql_expr::{
    Alias, AliasedField, AsExpression, AsInExpression, BoxedLimitOffset, BoxedSelectStatement,
    CombinationClause, Comparison, Direction, DistinctClause, Expr, ExpressionMethods, FromClause,
    GroupByClause, HavingClause, InValues, IntoExpressions, IntoJoinRhs, IntoOrder, IntoOrderItem,
    Join, JoinKind, JoinOn, JoinRhs, LimitOffsetClause, LockMode, LockingClause, Logic, Marks,
    Modifier, OnClauseWrapper, OrderClause, OrderColumn, OrderDecorator, OrderItem, PositionalItem,
    SelectClause, SelectStatement, Source, Statement, TableSource, Tablesample, TablesampleMethod,
    Unary, WhereAnd, WhereClause, WhereOr, count, count_star, exists, list, not, order_by, value,
};

// Aliases, joins and default selections.
pub use sql_origin::Origin;
pub use sql_source::{
    AliasFields, AliasSource, AppearsInFromClause, AppendSelection, Count, InternalJoinDsl,
    JoinDsl, JoinOnDsl, JoinTo, NewAlias, NewOnClauseWrapper, NewTableSource, OnlyDsl, Plus,
    QuerySource, Side, TablesampleDsl, ToInnerJoin, counts_add_up, fields_of_the_table_alone,
    fields_twice_as_once, inner_joins_pad_nothing, pick, related_tables_have_a_condition,
    same_origins_are_equal,
};

// The calls on statements.
pub use sql_select::{
    AsQuery, BoxedQueryHelper, CombineDsl, HasQuery, IntoPositionalOrderExpr, OrderColumnMethods,
    PositionalOrderDsl, Query, QueryDsl, SelectStatementAccessor, SimpleSelect,
    filter_and_then_order_by_append, methods, or_filter_is_filter_with_or, select,
    the_later_call_stands,
};

// Raw queries, and the line that shows a part for debugging.
pub use sql_raw::{
    BoxedSqlQuery, DebugQuery, Empty, SqlQuery, UncheckedBind, debug_query, sql_query,
};

// Statements as flat lists, and back.
pub use sql_flat::{
    Combining, Flat, FlatKind, FlatNode, Form, Selecting, Uniqueness,
    different_expressions_have_different_lists, different_statements_have_different_lists,
    expression_nodes, flatten,
};
pub use sql_flat_back::Unflatten;

// Keys: by what a cache knows a statement.
pub use sql_key::{
    QueryId, QueryKey, compared_keys_are_equal_keys, equal_keys_are_equal_shapes,
    equal_keys_hash_alike, flat_query_id,
};
pub use sql_shape::equal_shapes_have_ids_alike;

// The rules, `compile`, and whether values fit.
pub use sql_check::{
    Built, CompileError, FusedAnswer, Names, RULES, Rule, Steps, boxing_takes_the_id_alone, broken,
    compile, compile_by, compile_flat_by, fused, values_fit,
};

// `compile` with column types that are right for NULL, a cache of its answers, and what statements answer.
pub use sql_rows::{
    RequestKey, StatementCache, accepted_statements_have_answers, answered_pairs_come_first,
    calls_are_answered_alone, compile_sound, compile_sound_by, counting_beside_is_no_promise,
    distinct_on_keeps_the_first, equal_ids, first_by_the_order_is_left, first_is_any,
    last_writer_is_an_answer, left_join_has_two_answers, needs_nullable_is_needed, one_answer,
    operators_work, posts_are_counted, the_example_is_accepted, types_are_sound,
    ungrouped_answers_are_the_same,
};

// The tenant guard.
pub use sql_guard::{
    Policy, RestrictError, guard_is_exact, guard_keeps_the_rules, guarded_statements_have_answers,
    on_is_needed, only_seen_rows_matter, other_rows_do_not_matter, restrict, restrict_all,
    restriction_is_exact, restriction_keeps_the_rules, without_subselects_restricting_is_enough,
};

// The laws: of the grammar, of what statements are read as, and of statements that break no rule or have one shape.
pub use sql_grammar::{
    filled_by_values as numbered_trees_are_filled, joined_texts, no_reading, one_reading,
    quoted_name, token_rules, worked_readings, worked_tokens, written,
};
pub use sql_normal::{filled_by_values, leaves_no_trace, only_reading, worked_statements};
pub use sql_rules_law::{
    a_statement_is_accepted, accepted_are_read, accepted_have_text, accepted_values_fit,
    list_lengths_can_be_exchanged, lists_are_flat, names_one_leaf, premises_are_needed,
    safe_without_value_lists, values_can_be_exchanged,
};

// The reader: the tree of a text, and the text of a tree.
pub use sql_read::{MAX_DEPTH as MAX_READ_DEPTH, ReadError, Tree, placeholders, read, write};

/// The types of the tree that `Tree::query` gives: the tree of a text, as its tokens say.
pub mod tree {
    pub use sql_read_lexer::Comparison;
    pub use sql_read_tree::{
        Direction, Distinctness, Expression, Item, JoinKind, Lock, LockMode, LockWait, Logic, Mark,
        Names, Page, Place, Query, Sample, SampleMethod, SetOperator, Source,
    };
}

// The audit: which tables and columns a text uses.
pub use sql_audit::{AuditError, AuditReport, ColumnUse, audit};
pub use sql_audit_law::{accepted_are_reported, one_answer as one_audit_answer};

/// The schema of a document of the program, so that both share one declaration of their tables.
pub mod documents {
    pub use sql_tool_document::{Refusal, read_schema};
}

/// Queries as documents write them, and the statements that they stand for over a schema.
pub mod syntax {
    pub use sql_build::{expression, statement, statement_to_restrict};
    pub use sql_build_depth::{
        MAX_DEPTH, is_expr_too_deep, is_too_deep, is_too_deep_restricted, is_too_deep_with,
    };
    pub use sql_build_syntax::{
        AliasName, BinaryOperator, Call, ClauseCall, ColumnName, Expr, FieldName, Form, Join,
        Membership, OrderItem, PlainCall, Quantified, Query, QueryStart, Source, TableName,
        UnaryOperator, all_stand,
    };
}

// The law that gives the premise of `compile_by` where it is told that the names are known.
pub use sql_build_law::built_statements_know_their_names;

/// The program's commands as one call, over any source and any sink of bytes.
pub mod program {
    pub use sql_tool_run::{Command, LIMIT, MAX_REQUESTS, Status, run};
    pub use sql_tool_stream::{
        CountedReader, Failed, MemorySink, MemorySource, Sink, Source, StdSink, StdSource,
        SureSink, SureSource,
    };
}
