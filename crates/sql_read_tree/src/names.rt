ghost use Rattle.std.specs.Prelude.{◌≡◌, ◌+◌, [], map, length, OnOk, string_bytes};
ghost use Rattle.sql_read_tree.specs.Path.{prefixed, prefixed_by};

use sql_dialect::NoMemory;
use std::alloc::Global;
use std::marker::Model;

/// The names of a path, at least one: `"schema"."table"."column"`.
#[derive(Debug, Drop)]
pub struct Names {
    last: String,
    // from the last but one to the first
    before: Vec<String>,
}

impl Model for Names {
    ghost use Rattle.std.specs.Prelude.{[], map, string_bytes};
    ghost use Rattle.sql_read_tree.specs.Path.{Path, prefixed_by};

    ghost Value = { Path };

    ghost view = { λ n. prefixed_by (map string_bytes n.before.items) (record { first = string_bytes n.last; more = [] }) };
}

impl Names {
    /// A path of one name.
    pub fn new(alloc: Global, name: String) -> Names
        ensures { result ≡ record { first = string_bytes name; more = [] } }
    {
        Names {
            last: name,
            before: Vec::new(alloc),
        }
    }

    /// Puts a name before the others.
    pub fn push_front(&mut self, name: String) -> Result<(), NoMemory>
        ensures { OnOk result (self.new ≡ prefixed (string_bytes name) self.old) }
    {
        self.before.push(name)?;
        Ok(())
    }

    /// The last name, and those before it, the nearest first.
    pub fn from_last(&self) -> (&str, &[String])
        ensures { self.now
            ≡ prefixed_by (map string_bytes result.1.now)
            (record { first = result.0.now; more = [] }) }
    {
        (self.last.as_str(), self.before.as_slice())
    }

    /// The first name.
    pub fn into_first(self) -> String
        ensures { string_bytes result ≡ self.first }
    {
        let Names { last, mut before } = self;
        match before.pop() {
            Some(first) => first,
            None => last,
        }
    }

    /// How many names there are.
    pub fn count(&self) -> usize
        ensures { result ≡ length self.now.more + 1 }
    {
        self.before.len() + 1
    }
}
