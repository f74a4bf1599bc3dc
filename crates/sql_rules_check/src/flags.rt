//! Which rules a statement breaks, a flag for each.
#![tactic(auto)]

ghost use Rattle.std.specs.Prelude.{◌≡◌, IfOk};
ghost use Rattle.sql_rules.specs.Lists.{Selects};
ghost use Rattle.sql_rules_check.specs.First.{IsFirst};
ghost use Rattle.sql_rules_check.specs.inside.Flags.{IsUp, flag};

use crate::names::Scoped;
use sql_rules::Rule;
use sql_schema::NoMemory;
use std::alloc::Global;

/// Of each rule but the last, whether the statement breaks it.
#[derive(Debug, Clone, Copy, PartialEq, Eq)]
pub(crate) struct Flags {
    pub(crate) scoped: Scoped,
    pub(crate) incompatible: bool,
    pub(crate) empty: bool,
    pub(crate) mismatched: bool,
    pub(crate) lacks_nullable: bool,
    pub(crate) misgrouped: bool,
    pub(crate) order_invalid: bool,
    pub(crate) unsupported: bool,
}

impl Flags {
    pub(crate) fn is_up(self, rule: Rule) -> bool
        ensures { result ≡ flag self rule }
    {
        match rule {
            Rule::UnknownName => self.scoped.unknown_name,
            Rule::Incompatible => self.incompatible,
            Rule::EmptyList => self.empty,
            Rule::NoRelation => self.scoped.no_relation,
            Rule::Ambiguous => self.scoped.ambiguous,
            Rule::NotTogether => self.scoped.not_together,
            Rule::NameClash => self.scoped.name_clash,
            Rule::NotInScope => self.scoped.not_in_scope,
            Rule::TypeMismatch => self.mismatched,
            Rule::NeedsNullable => self.lacks_nullable,
            Rule::Grouping => self.misgrouped,
            Rule::InvalidDistinctOrder => self.order_invalid,
            Rule::Unsupported => self.unsupported,
            Rule::TooManyBinds => false,
        }
    }

    /// The first of these rules whose flag is up.
    pub(crate) fn first_of(self, rules: &[Rule]) -> Option<Rule>
        ensures { IsFirst (IsUp self) rules.now result }
    {
        for rule in rules {
            if self.is_up(*rule) {
                return Some(*rule);
            }
        }
        None
    }

    /// Those of these rules whose flags are up.
    pub(crate) fn all_of(self, alloc: Global, rules: &[Rule]) -> Result<Vec<Rule>, NoMemory>
        ensures { IfOk result (λ v. Selects (IsUp self) rules.now v.items) }
    {
        let mut all = Vec::new(alloc);
        for rule in rules {
            if self.is_up(*rule) {
                all.push(*rule)?;
            }
        }
        Ok(all)
    }
}
