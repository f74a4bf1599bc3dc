//! Laws on the definitions alone. Each function does nothing; its contract is the law.

ghost use Rattle.std.specs.Prelude.{◌≡◌, ◌↔◌, IsTrue};
ghost use Rattle.sql_schema.specs.Refusals.{same_base};
ghost use Rattle.sql_schema.specs.Equality.{same_type, same_column, same_table};
ghost use Rattle.sql_schema.specs.declared.declaration.ColumnDecl.{ColumnDecl};
ghost use Rattle.sql_schema.specs.declared.declaration.TableDecl.{TableDecl};
ghost use Rattle.sql_schema.specs.declared.types.Base.{Base};
ghost use Rattle.sql_schema.specs.declared.types.SqlType.{SqlType};

/// `==` on types and on declarations of columns and tables is true of equal values, and of no others.
pub fn equality_is_equality()
    ensures bases { (a b : Base) → IsTrue (same_base a b) ↔ (a ≡ b) }
    ensures types { (a b : SqlType) → IsTrue (same_type a b) ↔ (a ≡ b) }
    ensures columns { (a b : ColumnDecl) → IsTrue (same_column a b) ↔ (a ≡ b) }
    ensures tables { (a b : TableDecl) → IsTrue (same_table a b) ↔ (a ≡ b) }
{}
