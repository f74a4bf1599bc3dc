ghost use Rattle.std.specs.Prelude.{◌≡◌, ℕ, List, length, cond, IfOk, OnOk, option_and_then};
ghost use Rattle.std.specs.BTreeMap.{get};
ghost use Rattle.sql_schema.specs.inside.Pairs.{key_of, key_cmp, is_key, IndexesPairs};

use crate::tables::Tables;
use crate::{JoinableDecl, NoMemory, SqlText};
use std::alloc::Global;
use std::collections::BTreeMap;

/// At which index of a list the element that names two tables is. The key is the indexes of the tables, the lesser
/// first.
pub(crate) type Pairs = BTreeMap<(usize, usize), usize>;

/// A declaration that names two tables, by which it is looked up.
pub(crate) trait NamesTables {
    ghost names_of: { Self → List ℕ × List ℕ };

    fn table_names(&self) -> (&str, &str)
        ensures one { result.0.now ≡ (names_of self.now).0 }
        ensures other { result.1.now ≡ (names_of self.now).1 };
}

impl NamesTables for JoinableDecl {
    ghost names_of = { λ j. (j.child, j.parent) };

    fn table_names(&self) -> (&str, &str) {
        (self.child.as_str(), self.parent.as_str())
    }
}

impl NamesTables for (SqlText, SqlText) {
    ghost names_of = { λ p. p };

    fn table_names(&self) -> (&str, &str) {
        (self.0.as_str(), self.1.as_str())
    }
}

/// The key of two tables, in either order, where there are both.
fn pair_key(tables: &Tables, one: &str, other: &str) -> Option<(usize, usize)>
    ensures { result ≡ key_of tables.now one.now other.now }
{
    let first = tables.index(one)?;
    let second = tables.index(other)?;
    Some((first.min(second), first.max(second)))
}

/// Sets the index of a key, where there is one.
fn set_index(pairs: &mut Pairs, key: Option<(usize, usize)>, index: usize) -> Result<(), NoMemory>
    ensures { OnOk result ((q : ℕ × ℕ) → get key_cmp pairs.new q
        ≡ cond (is_key key q) (Some index) (get key_cmp pairs.old q)) }
{
    match key {
        None => Ok(()),
        Some(key) => {
            pairs.insert(key, index)?;
            Ok(())
        }
    }
}

/// The index of each pair of tables that an element names. Of elements that name one pair the last is found.
pub(crate) fn index_pairs<T: NamesTables>(
    alloc: Global,
    tables: &Tables,
    items: &[T],
) -> Result<Pairs, NoMemory>
    ensures { IfOk result (λ m. IndexesPairs tables.now T.names_of m items.now (length items.now)) }
{
    let mut pairs = BTreeMap::new(alloc);
    for (index, item) in items.iter().enumerate() {
        let (one, other) = item.table_names();
        set_index(&mut pairs, pair_key(tables, one, other), index)?;
    }
    Ok(pairs)
}

/// The index of the element that names the two tables, in either order, where there is one.
pub(crate) fn index_of_pair(pairs: &Pairs, tables: &Tables, one: &str, other: &str) -> Option<usize>
    ensures { result
        ≡ option_and_then (get key_cmp pairs.now) (key_of tables.now one.now other.now) }
{
    let key = pair_key(tables, one, other)?;
    pairs.get(&key).copied()
}
