ghost use Rattle.std.specs.Prelude.{◌≡◌, Some, IfOk, IfErr};
ghost use Rattle.sql_node.specs.Tree.{Statement as Tree};
ghost use Rattle.sql_node.specs.View.{statement_tree};
ghost use Rattle.sql_flat.specs.Flat.{flat_of};
ghost use Rattle.sql_check.specs.Compiled.{IsBuilt, IsLeast, IsRead};
ghost use Rattle.sql_check.specs.Errors.{rule_of};
ghost use Rattle.sql_rules_check.specs.declared.names.Names.TheVariants as name;
ghost use Rattle.sql_rules.specs.Rules.{Broken};
ghost use Rattle.sql_rules.specs.declared.rule.Rule.{Rule};
ghost use Rattle.sql_rules.specs.declared.rule.Rule.TheVariants as rule;
ghost use Rattle.sql_rows_meaning.specs.Fitting.{AnswersFit};
ghost use Rattle.sql_rows.specs.Sound.{CompilesSoundly};

use sql_check::{Built, CompileError, Names, compile_by, compile_flat_by};
use sql_dialect::Backend;
use sql_flat::Flat;
use sql_node::Statement;
use sql_rows_meaning::types_are_sound;
use sql_schema::Schema;
use std::alloc::Global;

/// Returns the answer of `compile_by`. A column whose type is not nullable gives NULL over no database that conforms to the schema:
/// `"users"."id"` of type Integer, `COUNT(*)`, but `"posts"."title"` right of a left join only as `Text?`. One rare form of a boxed
/// statement is left out (`CountsBeside`, `docs/MEANING.md`).
///
/// Statement and schema stay as they are. `NoMemory` may stand in place of any answer.
pub fn compile_sound_by<DB: Backend>(
    alloc: Global,
    names: Names,
    backend: &DB,
    schema: &Schema,
    statement: &Statement,
) -> Result<Built, CompileError>
    requires { names ≡ name.Known
        → ¬ Broken rule.UnknownName schema.now DB.speaks (statement_tree statement.now) }
    ensures { CompilesSoundly schema.now DB.speaks (statement_tree statement.now) result }
{
    types_are_sound();
    compile_by(alloc, names, backend, schema, statement)
}

/// Returns the answer of `compile_sound_by` for the statement whose flat list this is.
pub(crate) fn compile_sound_flat_by<DB: Backend>(
    alloc: Global,
    names: Names,
    backend: &DB,
    schema: &Schema,
    flat: &Flat,
) -> Result<Built, CompileError>
    requires { names ≡ name.Known → (s : Tree) → flat.now ≡ flat_of s
        → ¬ Broken rule.UnknownName schema.now DB.speaks s }
    ensures { (s : Tree) → flat.now ≡ flat_of s → CompilesSoundly schema.now DB.speaks s result }
{
    types_are_sound();
    compile_flat_by(alloc, names, backend, schema, flat)
}

/// Returns the answer of `compile`, with column types that are right for NULL, as those of `compile_sound_by`.
///
/// Statement and schema stay as they are. `NoMemory` may stand in place of any answer.
pub fn compile_sound<DB: Backend>(
    alloc: Global,
    backend: &DB,
    schema: &Schema,
    statement: &Statement,
) -> Result<Built, CompileError>
    ensures built { IfOk result (λ b. IsBuilt schema.now DB.speaks (statement_tree statement.now)
        b) }
    ensures read { IfOk result (λ b. IsRead DB.speaks (statement_tree statement.now)
        b.sql b.binds) }
    ensures sound { IfOk result (λ b. AnswersFit schema.now (statement_tree statement.now)
        b.sql_types) }
    ensures refused { IfErr result (λ e. (r : Rule) → rule_of e ≡ Some r
        → IsLeast r schema.now DB.speaks (statement_tree statement.now)) }
{
    compile_sound_by(alloc, Names::Asked, backend, schema, statement)
}
