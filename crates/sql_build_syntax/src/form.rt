#![tactic(auto, using(crate::proofs::Trees::opens_call))]

ghost use Rattle.std.specs.Prelude.{◌≡◌, map};
ghost use Rattle.sql_build_syntax.specs.Forms.{is_unboxed as unboxed, selects as selecting, combines as combining, plain_stands as plain_on, clause_stands as clause_on, stands as call_on, after as form_after, stand};
ghost use Rattle.sql_build_syntax.specs.View.{call_tree, calls_of};
ghost use Rattle.sql_build_syntax.specs.declared.form.Form.TheVariants as form;

use crate::{Call, ClauseCall, PlainCall};

/// The kind of statement that a query has become by its calls so far. It begins as a select statement.
#[derive(Debug, Clone, Copy, PartialEq, Eq)]
pub enum Form {
    /// A select statement, on which all calls stand but those of combinations alone.
    Select,
    /// A select statement after `into_boxed`.
    Boxed,
    /// Two statements as one.
    Combination,
}

impl Form {
    fn is_unboxed(self) -> bool
        ensures { result ≡ unboxed self }
    {
        match self {
            Form::Select => true,
            Form::Boxed | Form::Combination => false,
        }
    }

    fn selects(self) -> bool
        ensures { result ≡ selecting self }
    {
        match self {
            Form::Select | Form::Boxed => true,
            Form::Combination => false,
        }
    }

    fn combines(self) -> bool
        ensures { result ≡ combining self }
    {
        match self {
            Form::Combination => true,
            Form::Select | Form::Boxed => false,
        }
    }

    fn takes_plain(self, call: PlainCall) -> bool
        ensures { result ≡ plain_on self call }
    {
        match call {
            PlainCall::Distinct | PlainCall::Count | PlainCall::Nullable => self.selects(),
            PlainCall::ForUpdate
            | PlainCall::ForNoKeyUpdate
            | PlainCall::ForShare
            | PlainCall::ForKeyShare
            | PlainCall::SkipLocked
            | PlainCall::NoWait => self.is_unboxed(),
        }
    }

    fn takes_clause(self, call: ClauseCall) -> bool
        ensures { result ≡ clause_on self call }
    {
        match call {
            ClauseCall::DistinctOn | ClauseCall::GroupBy => self.is_unboxed(),
            ClauseCall::Select | ClauseCall::Filter | ClauseCall::OrFilter | ClauseCall::Having => {
                self.selects()
            }
        }
    }

    /// Whether this form has the call.
    pub fn takes(self, call: &Call) -> bool
        ensures { result ≡ call_on self (call_tree call.now) }
    {
        match call {
            Call::Plain(call) => self.takes_plain(*call),
            Call::Clause(call, _) => self.takes_clause(*call),
            Call::Join(_, _, _) => self.selects(),
            Call::Find(_) => self.is_unboxed(),
            Call::Order(_) => self.selects(),
            Call::ThenOrderBy(_) => self.selects(),
            Call::Limit(_) => true,
            Call::Offset(_) => true,
            Call::IntoBoxed(_) => self.is_unboxed(),
            Call::Combine(_, _, _) => true,
            Call::PositionalOrderBy(_) => self.combines(),
        }
    }

    /// The form that the call gives.
    pub fn after(self, call: &Call) -> Form
        ensures { result ≡ form_after self (call_tree call.now) }
    {
        match call {
            Call::IntoBoxed(_) => Form::Boxed,
            Call::Combine(_, _, _) => Form::Combination,
            Call::Plain(_) => self,
            Call::Clause(_, _) => self,
            Call::Join(_, _, _) => self,
            Call::Find(_) => self,
            Call::Order(_) => self,
            Call::ThenOrderBy(_) => self,
            Call::Limit(_) => self,
            Call::Offset(_) => self,
            Call::PositionalOrderBy(_) => self,
        }
    }
}

/// Whether each call is one of the form that the calls before it give, from a select statement on.
pub fn all_stand(calls: &[Call]) -> bool
    ensures { result ≡ stand form.Select (calls_of (map call_tree calls.now)) }
{
    let mut form = Form::Select;
    for call in calls {
        if !form.takes(call) {
            return false;
        }
        form = form.after(call);
    }
    true
}
