ghost use Rattle.std.specs.Prelude.{◌≡◌, ◌∷◌, ◌++◌, ◌+◌, [], length, IfOk, OnOk};
ghost use Rattle.sql_audit_resolution.specs.Leaves as l;
ghost use Rattle.sql_audit_resolution.specs.inside.After as after;
ghost use Rattle.sql_read_tree.specs.View.{source_tree, query_tree, maybe_source_tree};

use crate::count::{source_end, source_start};
use crate::path::{copied, names_backwards};
use sql_read_tree::{Names, Query, Source};
use sql_schema::{NoMemory, SqlText};
use std::alloc::Global;
use std::marker::Model;
use std::rc::Rc;
use std::slice::from_ref;

/// A table or an alias in a FROM.
#[derive(Drop)]
pub(crate) struct Leaf {
    number: usize,
    alias: Option<SqlText>,
    /// From the last name to the first.
    table: Vec<SqlText>,
}

impl Model for Leaf {
    ghost use Rattle.sql_audit_resolution.specs.Leaves.{Leaf};
    ghost use Rattle.sql_audit_resolution.specs.inside.Lists.{exposed_by};

    ghost Value = { Leaf };

    ghost view = { λ l. record {
      number = l.number;
      exposed = exposed_by l.alias l.table.items;
      table = l.table.items;
    } };
}

impl Leaf {
    /// Its place among the leaves of the text.
    pub(crate) fn number(&self) -> usize
        ensures { result ≡ self.now.number }
    {
        self.number
    }

    /// The path by which columns name it, from the last name to the first.
    pub(crate) fn exposed(&self) -> &[SqlText]
        ensures { result.now ≡ self.now.exposed }
    {
        match &self.alias {
            None => self.table.as_slice(),
            Some(alias) => from_ref(alias),
        }
    }

    /// The path of its table, from the last name to the first.
    pub(crate) fn table(&self) -> &[SqlText]
        ensures { result.now ≡ self.now.table }
    {
        self.table.as_slice()
    }
}

/// The leaves that a clause sees at once. Copies share them.
pub(crate) struct Level {
    leaves: Rc<Vec<Leaf>>,
}

impl Drop for Level {
    fn drop(self) {
        let Level { leaves: _ } = self;
    }
}

impl Model for Level {
    ghost use Rattle.std.specs.Prelude.{List};
    ghost use Rattle.sql_audit_resolution.specs.Leaves.{Leaf};

    ghost Value = { List Leaf };

    ghost view = { λ l. l.leaves.value.items };
}

impl Level {
    fn new(alloc: Global, leaves: Vec<Leaf>) -> Result<Level, NoMemory>
        ensures { IfOk result (λ l. l ≡ leaves.items) }
    {
        let leaves = Rc::new(alloc, leaves)?;
        Ok(Level { leaves })
    }

    /// Its leaves, from left to right.
    pub(crate) fn leaves(&self) -> &[Leaf]
        ensures { result.now ≡ self.now }
    {
        self.leaves.as_slice()
    }

    /// The same level.
    fn try_clone(&self) -> Result<Level, NoMemory>
        ensures { IfOk result (λ l. l ≡ self.now) }
    {
        let leaves = self.leaves.clone()?;
        Ok(Level { leaves })
    }
}

fn table_leaf(alloc: Global, number: usize, names: &Names) -> Result<Leaf, NoMemory>
    ensures { IfOk result (λ leaf. leaf
        ≡ record {
          number = number;
          exposed = l.backwards names.now.first names.now.more;
          table = l.backwards names.now.first names.now.more;
        }) }
{
    let table = names_backwards(alloc, names)?;
    Ok(Leaf {
        number,
        alias: None,
        table,
    })
}

fn alias_leaf(alloc: Global, number: usize, names: &Names, alias: &str) -> Result<Leaf, NoMemory>
    ensures { IfOk result (λ leaf. leaf
        ≡ record {
          number = number;
          exposed = alias.now ∷ [];
          table = l.backwards names.now.first names.now.more;
        }) }
{
    let table = names_backwards(alloc, names)?;
    let alias = copied(alloc, alias)?;
    Ok(Leaf {
        number,
        alias: Some(alias),
        table,
    })
}

/// Adds the leaves of a source, the first with that number, those of subselects in its conditions not among them.
fn push_leaves(
    alloc: Global,
    out: &mut Vec<Leaf>,
    number: usize,
    source: &Source,
) -> Result<(), NoMemory>
    ensures { OnOk result
        (out.new.items ≡ out.old.items ++ l.leaves_source number (source_tree source.now)) }
{
    match source {
        Source::Table(names, _, _) => {
            out.push(table_leaf(alloc, number, names)?)?;
            Ok(())
        }
        Source::Alias(names, alias) => {
            out.push(alias_leaf(alloc, number, names, alias.as_str())?)?;
            Ok(())
        }
        Source::Join(_, a, b, _) => {
            push_leaves(alloc, out, number, a)?;
            let next = source_end(number, a)?;
            push_leaves(alloc, out, next, b)?;
            Ok(())
        }
    }
}

/// The leaves that the condition of a join sees, where the first of them has that number.
#[inline(never)]
pub(crate) fn join_level(alloc: Global, number: usize, source: &Source) -> Result<Level, NoMemory>
    ensures { IfOk result (λ level. level ≡ l.leaves_source number (source_tree source.now)) }
{
    let mut leaves = Vec::new(alloc);
    push_leaves(alloc, &mut leaves, number, source)?;
    Level::new(alloc, leaves)
}

fn from_level(alloc: Global, number: usize, source: &Option<Source>) -> Result<Level, NoMemory>
    ensures { IfOk result
        (λ level. level ≡ l.leaves_from number (maybe_source_tree source.now)) }
{
    match source {
        None => Level::new(alloc, Vec::new(alloc)),
        Some(source) => join_level(alloc, number, source),
    }
}

/// The leaves of a select statement, where the first leaf that stands in it has that number.
#[inline(never)]
pub(crate) fn own_level(alloc: Global, number: usize, query: &Query) -> Result<Level, NoMemory>
    ensures { IfOk result (λ level. level ≡ after.own_level number (query_tree query.now)) }
{
    match query {
        Query::Select(distinct, _, _, source, ..) => {
            let start = source_start(number, distinct, query)?;
            from_level(alloc, start, source)
        }
        Query::Combined(..) => Level::new(alloc, Vec::new(alloc)),
    }
}

/// A level and those around it.
#[inline(never)]
pub(crate) fn widened(alloc: Global, own: &Level, around: &[Level]) -> Result<Vec<Level>, NoMemory>
    ensures { IfOk result (λ v. v.items ≡ own.now ∷ around.now) }
{
    let mut levels = Vec::new(alloc);
    levels.push(own.try_clone()?)?;
    for level in around {
        levels.push(level.try_clone()?)?;
    }
    Ok(levels)
}
