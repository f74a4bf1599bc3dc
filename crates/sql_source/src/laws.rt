//! Laws on the definitions alone. Each function does nothing; its contract is the law.

ghost use Rattle.std.specs.Prelude.{◌≡◌, ◌≢◌, ◌↔◌, ℕ, List, None, IsTrue, IsSome, map};
ghost use Rattle.sql_schema.specs.Declarations.{Declarations};
ghost use Rattle.sql_schema.specs.Refusals.{least_refusal};
ghost use Rattle.sql_schema.specs.declared.declaration.ColumnDecl.{ColumnDecl};
ghost use Rattle.sql_schema.specs.declared.declaration.TableDecl.{TableDecl};
ghost use Rattle.sql_node.specs.Tree.{Expr, Origin, Source, column};
ghost use Rattle.sql_source.specs.Counts.{sum_of};
ghost use Rattle.sql_source.specs.Fields.{fields_in};
ghost use Rattle.sql_source.specs.Joins.{all_inner, is_declared, related_on, relation};
ghost use Rattle.sql_origin.specs.Leaves.{leaves, unpadded};
ghost use Rattle.sql_origin.specs.Origins.{a_table, an_alias, same_origin};
ghost use Rattle.sql_source.specs.declared.count.Count.{Count};
ghost use Rattle.sql_source.specs.declared.count.Count.TheVariants.{Never};

/// Counts are added in any order, and what never appears adds nothing.
pub fn counts_add_up()
    ensures commutative { (a b : Count) → sum_of a b ≡ sum_of b a }
    ensures associative { (a b c : Count) → sum_of (sum_of a b) c ≡ sum_of a (sum_of b c) }
    ensures unit { (a : Count) → sum_of Never a ≡ a }
{}

/// The test by which leaves are counted is equality: of the alias, and of the whole declaration of the table.
pub fn same_origins_are_equal()
    ensures { (a b : Origin) → IsTrue (same_origin a b) ↔ (a ≡ b) }
{}

/// The columns of an alias's table become fields of the alias; other tables' columns stay, and so do aliased fields.
pub fn fields_of_the_table_alone()
    ensures own { (a : List ℕ) (t : TableDecl) (c : ColumnDecl) →
        fields_in a t (column (a_table t) c) ≡ column (an_alias a t) c }
    ensures others { (a : List ℕ) (t other : TableDecl) (c : ColumnDecl) → t ≢ other →
        fields_in a t (column (a_table other) c) ≡ column (a_table other) c }
    ensures fields { (a b : List ℕ) (t other : TableDecl) (c : ColumnDecl) →
        fields_in a t (column (an_alias b other) c) ≡ column (an_alias b other) c }
{}

/// Fields of an alias are taken once for all.
pub fn fields_twice_as_once()
    ensures { (a : List ℕ) (t : TableDecl) (e : Expr) →
        fields_in a t (fields_in a t e) ≡ fields_in a t e }
{}

/// With inner joins alone a source has the same leaves, none of them padded.
pub fn inner_joins_pad_nothing()
    ensures { (s : Source) → leaves (all_inner s) ≡ map unpadded (leaves s) }
{}

/// Two tables that a sound schema declares and relates are always joined on a condition: none of its columns is missing.
pub fn related_tables_have_a_condition()
    ensures { (s : Declarations) (a b : Origin) → least_refusal s ≡ None →
        IsTrue (is_declared s a.table) → IsTrue (is_declared s b.table) →
        IsSome (relation s a.table b.table) → IsSome (related_on s a b) }
{}
