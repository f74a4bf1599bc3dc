ghost use Rattle.std.specs.Prelude.{◌≡◌, ℕ, List};
ghost use Rattle.sql_dialect.specs.Written.{quoted};
ghost use Rattle.sql_dialect.specs.declared.backend.Dialect.{Dialect};

/// Different names never have one quoted text in a dialect: what a reader takes between the quotes is the name.
pub fn quoted_names_differ()
    ensures { (d : Dialect) (a b : List ℕ) → quoted d a ≡ quoted d b → a ≡ b }
{}
