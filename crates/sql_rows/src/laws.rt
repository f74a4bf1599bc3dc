//! Laws on ids and on statement caches. None does anything when it runs.

ghost use Rattle.std.specs.Prelude.{◌≡◌, List, Ok, Some, map, slice_get};
ghost use Rattle.sql_schema.specs.Declarations.{Declarations};
ghost use Rattle.sql_dialect.specs.declared.backend.Dialect.{Dialect};
ghost use Rattle.sql_pass.specs.Bounds.{type_of as bind_type};
ghost use Rattle.sql_pass.specs.Pieces.{text_of, values_of};
ghost use Rattle.sql_node.specs.Pieces.{pieces};
ghost use Rattle.sql_node.specs.Tree.{Statement};
ghost use Rattle.sql_shape.specs.Shape.{shape};
ghost use Rattle.sql_key.specs.Keys.{id_of};
ghost use Rattle.sql_flat.specs.declared.kind.FlatNode.{FlatNode};
ghost use Rattle.sql_rules.specs.Lists.{Each};
ghost use Rattle.sql_rules.specs.Rules.{Accepted};
ghost use Rattle.sql_rules.specs.Safety.{is_safe_in};
ghost use Rattle.sql_rules.specs.Types.{columns};
ghost use Rattle.sql_rules.specs.declared.rule.Rule.{Rule};
ghost use Rattle.sql_rules_law.specs.Fitting.{ValuesFit};
ghost use Rattle.sql_check.specs.Compiled.{IsBuilt, IsLeast};
ghost use Rattle.sql_check.specs.declared.built.Built.{Built};
ghost use Rattle.sql_rows.specs.Calls.{AreCalls, Call, IsAnswer, IsCall};
ghost use Rattle.sql_rows.specs.Entries.{Entries};

/// Over every list of calls each answer is of its statement alone, over the schema that the cache was made with.
pub fn calls_are_answered_alone()
    ensures answers { (before after : Entries) (calls : List Call) → AreCalls before calls after
        → Each (λ c. IsAnswer before.schema c.dialect c.statement c.answer) calls }
    ensures schema { (before after : Entries) (calls : List Call) → AreCalls before calls after
        → after.schema ≡ before.schema }
{}

/// There is no other answer: of a statement at most one is built, or one rule is the first that it breaks, and never both.
pub fn one_answer()
    ensures built { (schema : Declarations) (d : Dialect) (s : Statement) (a b : Built)
        → IsBuilt schema d s a
        → IsBuilt schema d s b
        → a ≡ b }
    ensures refused { (schema : Declarations) (d : Dialect) (s : Statement) (q r : Rule)
        → IsLeast q schema d s
        → IsLeast r schema d s
        → q ≡ r }
    ensures either { (schema : Declarations) (d : Dialect) (s : Statement) (b : Built) (r : Rule)
        → IsBuilt schema d s b
        → ¬ IsLeast r schema d s }
{}

/// After each answer that is Ok, of a statement that has an id, its pair is the first.
pub fn answered_pairs_come_first()
    ensures { (before after : Entries) (d : Dialect) (s : Statement) (b : Built) (k : List FlatNode)
        → id_of s ≡ Some k
        → IsCall before (record { dialect = d; statement = s; answer = Ok b }) after
        → slice_get after.keys 0 ≡ Some (record { dialect = d; key = k }) }
{}

/// Statements of one id, which is their key, have one shape; so they have one text in each dialect, bind values of the same
/// types in the same order, and have columns of the same types. Where one breaks no rule, each other whose values fit
/// breaks none either: what was told of the one serves for it.
pub fn equal_ids()
    ensures shapes { (a b : Statement) (k : List FlatNode)
        → id_of a ≡ Some k
        → id_of b ≡ Some k
        → shape a ≡ shape b }
    ensures text { (d : Dialect) (a b : Statement) (k : List FlatNode)
        → id_of a ≡ Some k
        → id_of b ≡ Some k
        → text_of d 0 (pieces d a) ≡ text_of d 0 (pieces d b) }
    ensures bind_types { (d : Dialect) (a b : Statement) (k : List FlatNode)
        → id_of a ≡ Some k
        → id_of b ≡ Some k
        → map bind_type (values_of (pieces d a)) ≡ map bind_type (values_of (pieces d b)) }
    ensures column_types { (a b : Statement) (k : List FlatNode)
        → id_of a ≡ Some k
        → id_of b ≡ Some k
        → columns a ≡ columns b }
    ensures safe { (d : Dialect) (a b : Statement) (k : List FlatNode)
        → id_of a ≡ Some k
        → id_of b ≡ Some k
        → is_safe_in d a ≡ is_safe_in d b }
    ensures accepted { (schema : Declarations) (d : Dialect) (a b : Statement) (k : List FlatNode)
        → id_of a ≡ Some k
        → id_of b ≡ Some k
        → ValuesFit b
        → Accepted schema d a
        → Accepted schema d b }
{}
