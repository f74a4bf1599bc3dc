ghost use Rattle.std.specs.Prelude.{◌≡◌, ℕ, List, Option, length, IfOk};
ghost use Rattle.std.specs.BTreeMap.{get_by_text};
ghost use Rattle.sql_schema.specs.inside.Indices.{Indexes};

use crate::{ColumnDecl, NoMemory, TableDecl};
use std::alloc::Global;
use std::collections::BTreeMap;

/// At which index of a list the element of a name is.
pub(crate) type Names = BTreeMap<String, usize>;

/// A declaration that is looked up by its name.
pub(crate) trait Named {
    ghost name_of: { Self → List ℕ };

    fn declared_name(&self) -> &str
        ensures { result.now ≡ name_of self.now };
}

impl Named for ColumnDecl {
    ghost name_of = { λ c. c.name };

    fn declared_name(&self) -> &str {
        self.name.as_str()
    }
}

impl Named for TableDecl {
    ghost name_of = { λ t. t.name };

    fn declared_name(&self) -> &str {
        self.name.as_str()
    }
}

/// The index of each name. Of elements of one name the last is found.
pub(crate) fn index_names<T: Named>(alloc: Global, items: &[T]) -> Result<Names, NoMemory>
    ensures { IfOk result (λ m. Indexes T.name_of (get_by_text m) items.now (length items.now)) }
{
    let mut names = BTreeMap::new(alloc);
    for (index, item) in items.iter().enumerate() {
        let name = String::from_str(alloc, item.declared_name())?;
        names.insert(name, index)?;
    }
    Ok(names)
}

/// The index of the name, where there is one.
pub(crate) fn index_of(names: &Names, name: &str) -> Option<usize>
    ensures { result ≡ get_by_text names.now name.now }
{
    names.get(name).copied()
}
