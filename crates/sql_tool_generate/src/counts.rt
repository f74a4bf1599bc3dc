ghost use Rattle.std.specs.Prelude.{◌≡◌, [], OnOk};
ghost use Rattle.sql_rules.specs.Texts.{rule_text};
ghost use Rattle.sql_tool_generate.specs.inside.Counting.{IsWithRefused, Tell, with_accepted};

use sql_rules::Rule;
use std::alloc::{AllocError, Global};
use std::collections::BTreeMap;

/// The counts of the requests so far. A number stays at the last of 64 bits where it would pass it.
#[derive(Drop)]
pub(crate) struct Counts {
    pub(crate) accepted: u64,
    /// How many values all accepted statements have.
    pub(crate) binds: u64,
    /// How many bytes their texts have.
    pub(crate) bytes: u64,
    /// How many requests are the first with their id.
    pub(crate) ids: u64,
    /// How many requests each rule refused, by its name.
    pub(crate) refused: BTreeMap<String, u64>,
    pub(crate) requests: u64,
}

impl Counts {
    /// Of no requests.
    pub(crate) fn new(alloc: Global) -> Counts
        ensures { Tell result [] }
    {
        Counts {
            accepted: 0,
            binds: 0,
            bytes: 0,
            ids: 0,
            refused: BTreeMap::new(alloc),
            requests: 0,
        }
    }

    /// Counts an accepted request, with so many values and bytes, and whether its id is its own number.
    pub(crate) fn accept(&mut self, binds: usize, bytes: usize, is_own: bool)
        ensures { self.new ≡ with_accepted binds bytes is_own self.old }
    {
        self.accepted = self.accepted.saturating_add(1);
        self.binds = self.binds.saturating_add(binds as u64);
        self.bytes = self.bytes.saturating_add(bytes as u64);
        self.ids = self.ids.saturating_add(u64::from(is_own));
        self.requests = self.requests.saturating_add(1);
    }

    /// Counts a request that the rule refuses.
    pub(crate) fn refuse(&mut self, alloc: Global, rule: Rule) -> Result<(), AllocError>
        ensures { OnOk result (IsWithRefused (rule_text rule) self.old self.new) }
    {
        let before = self.refused.get(rule.name()).copied().unwrap_or(0);
        let name = String::from_str(alloc, rule.name())?;
        self.refused.insert(name, before.saturating_add(1))?;
        self.requests = self.requests.saturating_add(1);
        Ok(())
    }
}
