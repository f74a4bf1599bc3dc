//! Laws on statements that break none of the rules.
//!
//! Each function carries laws about the definitions in `specs/` of the crates below. None does anything when it runs.
//!
//! That an accepted statement has a text, and which tree that is, are laws over definitions, so they are proved beside the checker. `compile`
//! cites them.
//!
//! A position in an order has four bytes, so its number is small enough to be read back. The laws have that as a premise (`PlacesAreCounted`),
//! and the checker's loop over the flat list gives it.
//!
//! Only in statements that are safe to prepare may lists be exchanged for lists of other lengths, also in what is said of rules. Everywhere
//! but on PostgreSQL a list is written value by value, so its length shows in the text; and on Bracket each value takes a number, so a longer
//! list may break TooManyBinds.
#![tactic(auto)]

ghost use Rattle.std.specs.Prelude.{◌≡◌, ◌≢◌, ◌↔◌, Bool, None, IsTrue, length, map, pos};
ghost use Rattle.sql_schema.specs.Declarations.{Declarations};
ghost use Rattle.sql_schema.specs.Refusals.{least_refusal};
ghost use Rattle.sql_schema.specs.declared.declaration.ColumnDecl.{ColumnDecl};
ghost use Rattle.sql_dialect.specs.declared.backend.Dialect.{Dialect};
ghost use Rattle.sql_dialect.specs.declared.backend.Dialect.TheVariants.{Mysql};
ghost use Rattle.sql_grammar.specs.Numbering.{Fills};
ghost use Rattle.sql_grammar.specs.Reading.{OnlyReading};
ghost use Rattle.sql_grammar.specs.Values.{values_query};
ghost use Rattle.sql_pass.specs.Bounds.{type_of as bind_type};
ghost use Rattle.sql_pass.specs.Pieces.{is_safe, text_of, values_of};
ghost use Rattle.sql_pass.specs.declared.value.Value.TheVariants.{Integer, Null};
ghost use Rattle.sql_leaf.specs.declared.limit_offset.LimitOffsetClause.{LimitOffsetClause};
ghost use Rattle.sql_leaf.specs.declared.marks.Marks.{Marks};
ghost use Rattle.sql_node.specs.Pieces.{pieces};
ghost use Rattle.sql_node.specs.Tree.{Distinct, Expr, Form, From, MaybeExpr, Order, Origin, Statement, select};
ghost use Rattle.sql_shape.specs.Ids.{has_id};
ghost use Rattle.sql_shape.specs.Shape.{shape};
ghost use Rattle.sql_normal.specs.Filled.{column_path, filled, lead, normal, trees};
ghost use Rattle.sql_normal.specs.inside.HasText.{HasNumbers, HasText};
ghost use Rattle.sql_rules.specs.Names.{IsNamed, path};
ghost use Rattle.sql_rules.specs.Rules.{Accepted, Broken};
ghost use Rattle.sql_rules.specs.Safety.{IsSafeIn, is_safe_in};
ghost use Rattle.sql_rules.specs.Scope.{EachNode, flat};
ghost use Rattle.sql_rules.specs.Types.{columns, form_columns, type_of};
ghost use Rattle.sql_rules.specs.declared.rule.Rule.{Rule};
ghost use Rattle.sql_rules.specs.declared.rule.Rule.TheVariants.{Ambiguous, EmptyList, NameClash, NoRelation, NotInScope, TooManyBinds, TypeMismatch, UnknownName, Unsupported};
ghost use Rattle.sql_rules_law.specs.Blank.{blank_bound};
ghost use Rattle.sql_rules.specs.Counted.{PlacesAreCounted};
ghost use Rattle.sql_rules_law.specs.Examples.{first_users, one_table, one_value, two_values, users_among, users_where_id};
ghost use Rattle.sql_rules_law.specs.Fitting.{ValuesFit, values_fit};
ghost use Rattle.sql_rules_law.specs.Lengths.{shape_without_lengths};
ghost use Rattle.sql_rules_law.specs.Paths.{names_in};

/// Proves that a statement has a text unless a rule refuses it: for lists without an element, joins without a condition, lists and
/// other things without a type as operands, or what the dialect lacks. One more rule keeps placeholders from having no number.
pub fn accepted_have_text()
    ensures text { (schema : Declarations) (d : Dialect) (s : Statement) → PlacesAreCounted s →
        ¬ Broken EmptyList schema d s → ¬ Broken NoRelation schema d s →
        ¬ Broken TypeMismatch schema d s → ¬ Broken Unsupported schema d s →
        HasText d s }
    ensures numbers { (schema : Declarations) (d : Dialect) (s : Statement)
        → ¬ Broken TooManyBinds schema d s →
        HasNumbers d (length (values_of (pieces d s))) }
{}

/// The text of a statement that breaks no rule is read as the statement's normal tree alone, and its values fill that
/// tree's placeholders, one by one: they are the values of its filled tree, in order.
pub fn accepted_are_read()
    ensures only { (schema : Declarations) (d : Dialect) (s : Statement) → PlacesAreCounted s
        → Accepted schema d s →
        OnlyReading d (text_of d 0 (pieces d s)) (normal d s) }
    ensures fills { (schema : Declarations) (d : Dialect) (s : Statement) → PlacesAreCounted s
        → Accepted schema d s →
        Fills (normal d s) (values_of (pieces d s)) (filled d s) }
    ensures as_many { (schema : Declarations) (d : Dialect) (s : Statement) → PlacesAreCounted s
        → Accepted schema d s →
        length (values_query (normal d s)) ≡ length (values_of (pieces d s)) }
    ensures values { (schema : Declarations) (d : Dialect) (s : Statement) → PlacesAreCounted s
        → Accepted schema d s →
        values_of (pieces d s) ≡ values_query (filled d s) }
{}

/// Where no name is unknown and no leaf is out of scope, met twice or named as another, the path of each column, as it is
/// written, names exactly one of what its clause sees: that which it is a column of. So it is in each clause of each
/// select statement, however deep.
pub fn names_one_leaf()
    ensures named { (schema : Declarations) (d : Dialect) (s : Statement) →
        ¬ Broken UnknownName schema d s → ¬ Broken Ambiguous schema d s →
        ¬ Broken NameClash schema d s → ¬ Broken NotInScope schema d s →
        EachNode IsNamed s }
    // That path is the column's path in the tree that the statement is read as.
    ensures path { (o : Origin) (c : ColumnDecl) →
        names_in (column_path o.alias o.table c.sql_name) ≡ path o c }
{}

/// The laws are of something: here are declarations that make a schema, and a statement that breaks no rule in any dialect.
pub fn a_statement_is_accepted()
    ensures declared { least_refusal one_table ≡ None }
    ensures accepted { (d : Dialect) → Accepted one_table d first_users }
    ensures counted { PlacesAreCounted first_users }
{}

/// A list stands for its elements, and a list inside a list for its own: the columns of a select statement have the types of
/// the flattened selection, and an expression has the trees of the elements of its flattening.
pub fn lists_are_flat()
    ensures types { (default : Bool) (e : Expr) (f : From) (u : Distinct) (w : MaybeExpr) (o : Order)
        (rows : LimitOffsetClause) (g h : MaybeExpr) (form : Form) (marks : Marks) →
        columns (select default e f u w o rows g h form marks) ≡ form_columns form (map type_of (flat e)) }
    ensures trees { (d : Dialect) (e : Expr) → trees d e ≡ map (λ x. lead (trees d x)) (flat e) }
{}

/// Values may be exchanged for others that fit their types, and a list of values for one as long.
///
/// Two statements have one shape where they are one statement but for that. Where the values of both fit, they break the same
/// rules and their columns have the same types. Whether they fit or not, in each dialect the two have one text and bind
/// values of the same types in the same order, lists of the same lengths; and both are safe to prepare there, or neither; and
/// both have an id, or neither. So a text that was prepared for one serves for the other.
pub fn values_can_be_exchanged()
    ensures rules { (schema : Declarations) (d : Dialect) (a b : Statement)
        → shape a ≡ shape b
        → ValuesFit a
        → ValuesFit b
        → (r : Rule) → Broken r schema d a ↔ Broken r schema d b }
    ensures column_types { (a b : Statement)
        → shape a ≡ shape b
        → ValuesFit a
        → ValuesFit b
        → columns a ≡ columns b }
    ensures text { (d : Dialect) (a b : Statement)
        → shape a ≡ shape b
        → text_of d 0 (pieces d a) ≡ text_of d 0 (pieces d b) }
    ensures bind_types { (d : Dialect) (a b : Statement)
        → shape a ≡ shape b
        → map bind_type (values_of (pieces d a)) ≡ map bind_type (values_of (pieces d b)) }
    ensures lengths { (d : Dialect) (a b : Statement)
        → shape a ≡ shape b
        → map blank_bound (values_of (pieces d a)) ≡ map blank_bound (values_of (pieces d b)) }
    ensures safe { (d : Dialect) (a b : Statement)
        → shape a ≡ shape b
        → is_safe_in d a ≡ is_safe_in d b }
    ensures id { (a b : Statement)
        → shape a ≡ shape b
        → has_id a ≡ has_id b }
{}

/// Lists of values may be exchanged for others of the same types and any length, where the statement is safe to prepare and
/// the values fit: a statement that breaks no rule still breaks none, its text stays, and so does the flag.
pub fn list_lengths_can_be_exchanged()
    ensures accepted { (schema : Declarations) (d : Dialect) (a b : Statement)
        → Accepted schema d a
        → IsSafeIn d a
        → shape_without_lengths a ≡ shape_without_lengths b
        → ValuesFit b
        → Accepted schema d b }
    ensures text { (d : Dialect) (a b : Statement)
        → IsSafeIn d a
        → shape_without_lengths a ≡ shape_without_lengths b
        → text_of d 0 (pieces d a) ≡ text_of d 0 (pieces d b) }
    ensures safe { (d : Dialect) (a b : Statement)
        → shape_without_lengths a ≡ shape_without_lengths b
        → is_safe_in d a ≡ is_safe_in d b }
    ensures one_shape { (a b : Statement)
        → shape a ≡ shape b
        → shape_without_lengths a ≡ shape_without_lengths b }
{}

/// The values of a statement that breaks no rule fit their types; and the test of `values_fit` says what it has to.
pub fn accepted_values_fit()
    ensures accepted { (schema : Declarations) (d : Dialect) (s : Statement)
        → Accepted schema d s
        → ValuesFit s }
    ensures test { (s : Statement) → IsTrue (values_fit s) ↔ ValuesFit s }
{}

/// The laws ask no more than they need. Of two statements of one shape, `WHERE ("users"."id" = $1)` over 1 and over NULL, the
/// first breaks no rule and the second does, since NULL does not fit a column that is not nullable. And on MySQL, where
/// a list of values is not safe, `IN (?)` and `IN (?, ?)` differ.
pub fn premises_are_needed()
    ensures one_shape { shape (users_where_id (Integer (pos 1))) ≡ shape (users_where_id Null) }
    ensures fits { (d : Dialect) → Accepted one_table d (users_where_id (Integer (pos 1))) }
    ensures misfits { (d : Dialect) → Broken TypeMismatch one_table d (users_where_id Null) }
    ensures one_but_for_lengths { shape_without_lengths (users_among one_value)
        ≡ shape_without_lengths (users_among two_values) }
    ensures lists_fit { ValuesFit (users_among one_value) × ValuesFit (users_among two_values) }
    ensures other_text { text_of Mysql 0 (pieces Mysql (users_among one_value))
        ≢ text_of Mysql 0 (pieces Mysql (users_among two_values)) }
{}

/// The flag that the pieces of a statement give says what it has to: the statement is safe to prepare in the dialect exactly
/// where the dialect is PostgreSQL or the statement holds no list of values.
pub fn safe_without_value_lists()
    ensures says { (d : Dialect) (s : Statement) → IsTrue (is_safe (pieces d s)) ↔ IsSafeIn d s }
    ensures test { (d : Dialect) (s : Statement) → is_safe_in d s ≡ is_safe (pieces d s) }
{}
