//! Where the loop stands: at a node, with a stack of the open nodes, each with how many of its children were begun.
//!
//! Of the list that `sql_flat` shows, what is written at each step, and the open nodes, the innermost first:
//!
//! ```text
//! 0  Select     SELECT                  Select
//! 1  Column     "users"."id"            Select      written whole
//! 2  From        FROM                   From Select
//! 3  Table      "users"                 From Select written whole
//! 4  Where      closes From;  WHERE     Where Select
//! 5  Compared   (                       Compared Where Select
//! 6  Column     "users"."id"            Compared Where Select
//! 7  Value       = $1                   Compared Where Select
//! 8  the end    closes all: )
//! ```
#![tactic(auto, using(crate::proofs::Pouring::pouring, crate::proofs::Framing::framing))]

ghost use Rattle.std.specs.Prelude.{◌≡◌, [], ◌++◌, ◌+◌, ◌-◌, ◌*◌, ◌<◌, ◌≤◌, ◌^◌, None, true, false, IsTrue, OnOk, drop, is_some, length, map, take};
ghost use Rattle.std.specs.List.{sum_by};
ghost use Rattle.sql_flat_text.specs.inside.Sinks.{Pours, sunk};
ghost use Rattle.sql_flat_text.specs.inside.Turns.{closed_first, closing, frames, has_ended, leading, led_first, onward as next_index, opened, opened_first, opened_index, opening, outer, parting, told_from, with_child};
ghost use Rattle.sql_flat_text.specs.inside.Writing.{is_list as writes_nothing, before, whole_of};
ghost use Rattle.sql_flat_text.specs.Steps.{kind_of, steps_of};

use crate::Steps;
use crate::sink::Sink;
use crate::whole::{is_whole, push_whole};
use crate::words::{push_after, push_before, push_between};
use sql_dialect::{Backend, BindError};
use sql_flat::{FlatKind, FlatNode};
use sql_leaf::COMMA;
use std::alloc::Global;
use std::sync::ledger::Ledger;

/// An open node, and how many of its children were begun.
#[derive(Debug, Clone, Copy)]
pub(crate) struct Open<'f> {
    pub(crate) node: &'f FlatNode,
    pub(crate) begun: usize,
}

/// Where the loop stands.
#[derive(Drop)]
pub(crate) struct Place<'f> {
    /// The index of the next node.
    pub(crate) index: usize,
    /// Whether the first element of the innermost list is still to come.
    pub(crate) first: bool,
    pub(crate) open: Vec<Open<'f>>,
}

fn is_list(kind: &FlatKind) -> bool
    ensures { result ≡ writes_nothing kind.now }
{
    match kind {
        FlatKind::List => true,
        FlatKind::Nullable => true,
        _ => false,
    }
}

/// Whether the innermost open node has ended at that index, of so many nodes.
fn innermost_has_ended(open: &[Open<'_>], index: usize, nodes: usize) -> bool
    ensures ended { result ≡ has_ended index nodes (frames «open».now) }
    ensures some { IsTrue result → 0 < length «open».now }
    ensures within { result ≡ false → 0 < length «open».now → index < nodes }
{
    match open.split_last() {
        None => false,
        Some((top, _)) => top.node.end <= index || nodes <= index,
    }
}

/// Appends what the innermost open node writes before its next child.
fn push_lead<DB: Backend>(open: &[Open<'_>], sink: &mut Sink<DB>) -> Result<(), BindError>
    ensures { Pours DB.speaks (sunk DB.QueryBuilder.text DB.QueryBuilder.count sink.old)
        (leading DB.speaks (frames «open».now)) result
        (sunk DB.QueryBuilder.text DB.QueryBuilder.count sink.new) }
{
    match open.split_last() {
        None => Ok(()),
        Some((top, _)) => {
            if is_list(&top.node.kind) {
                Ok(())
            } else {
                push_between(&top.node.kind, top.begun, sink)
            }
        }
    }
}

/// Whether the next child of the innermost open node is the first element of a list.
fn leads_first(open: &[Open<'_>], first: bool) -> bool
    ensures { result ≡ led_first (frames «open».now) first }
{
    match open.split_last() {
        None => true,
        Some((top, _)) => !is_list(&top.node.kind) || first,
    }
}

/// Counts one more child of the innermost open node.
fn count_child(open: &mut Vec<Open<'_>>)
    requires { sum_by (λ o. o.begun) «open».old.items + 1 < 2 ^ 64 }
    ensures frames { frames «open».new.items ≡ with_child (frames «open».old.items) }
    ensures count { sum_by (λ o. o.begun) «open».new.items
        ≤ sum_by (λ o. o.begun) «open».old.items + 1 }
{
    if let Some(top) = open.last_mut() {
        top.begun += 1;
    }
}

fn push_comma<DB: Backend>(first: bool, sink: &mut Sink<DB>) -> Result<(), BindError>
    ensures { Pours DB.speaks (sunk DB.QueryBuilder.text DB.QueryBuilder.count sink.old)
        (parting first) result
        (sunk DB.QueryBuilder.text DB.QueryBuilder.count sink.new) }
{
    match first {
        true => Ok(()),
        false => sink.push_sql(COMMA),
    }
}

/// The index after what was written whole, of so many nodes.
fn onward(index: usize, end: usize, nodes: usize) -> usize
    requires { index < nodes }
    ensures { result ≡ next_index index end nodes }
{
    if end <= index {
        return index + 1;
    }
    if end <= nodes {
        return end;
    }
    nodes
}

/// Appends what is written before the first child of a node.
fn push_start<DB: Backend>(
    first: bool,
    kind: &FlatKind,
    sink: &mut Sink<DB>,
) -> Result<(), BindError>
    ensures { Pours DB.speaks (sunk DB.QueryBuilder.text DB.QueryBuilder.count sink.old)
        (opening DB.speaks None kind.now first) result
        (sunk DB.QueryBuilder.text DB.QueryBuilder.count sink.new) }
{
    if is_list(kind) {
        return Ok(());
    }
    push_comma(first, sink)?;
    push_before(kind, sink)
}

fn push_next_whole<DB: Backend>(
    first: bool,
    kind: &FlatKind,
    below: &[FlatNode],
    sink: &mut Sink<DB>,
) -> Result<(), BindError>
    requires { IsTrue (is_some (whole_of DB.speaks kind.now (map kind_of below.now))) }
    ensures { Pours DB.speaks (sunk DB.QueryBuilder.text DB.QueryBuilder.count sink.old)
        (opening DB.speaks (whole_of DB.speaks kind.now (map kind_of below.now)) kind.now first)
        result (sunk DB.QueryBuilder.text DB.QueryBuilder.count sink.new) }
{
    push_comma(first, sink)?;
    push_whole(kind, below, sink)
}

impl<'f> Place<'f> {
    /// Closes the innermost open node.
    fn close<DB: Backend>(&mut self, sink: &mut Sink<DB>) -> Result<(), BindError>
        ensures text { Pours DB.speaks
            (sunk DB.QueryBuilder.text DB.QueryBuilder.count sink.old)
            (closing DB.speaks (frames self.old.«open».items)) result
            (sunk DB.QueryBuilder.text DB.QueryBuilder.count sink.new) }
        ensures frames { OnOk result
            (frames self.new.«open».items ≡ outer (frames self.old.«open».items)) }
        ensures first { OnOk result
            (self.new.first ≡ closed_first (frames self.old.«open».items) self.old.first) }
        ensures index { self.new.index ≡ self.old.index }
        ensures counts { sum_by (λ o. o.begun) self.new.«open».items
            ≤ sum_by (λ o. o.begun) self.old.«open».items }
        ensures shrinks { 0 < length self.old.«open».items
            → length self.new.«open».items + 1 ≡ length self.old.«open».items }
    {
        match self.open.pop() {
            None => Ok(()),
            Some(top) => {
                if is_list(&top.node.kind) {
                    return Ok(());
                }
                push_after(&top.node.kind, sink)?;
                self.first = false;
                Ok(())
            }
        }
    }

    /// Begins a node over those, of so many nodes in all.
    #[tactic(auto, using(crate::proofs::Pouring::keeps, crate::proofs::Framing::framing))]
    fn enter<DB: Backend>(
        &mut self,
        node: &'f FlatNode,
        below: &[FlatNode],
        nodes: usize,
        sink: &mut Sink<DB>,
    ) -> Result<(), BindError>
        requires { self.old.index < nodes }
        ensures text { Pours DB.speaks
            (sunk DB.QueryBuilder.text DB.QueryBuilder.count sink.old)
            (opening DB.speaks (whole_of DB.speaks node.now.kind (map kind_of below.now))
            node.now.kind self.old.first) result
            (sunk DB.QueryBuilder.text DB.QueryBuilder.count sink.new) }
        ensures frames { OnOk result (frames self.new.«open».items
            ≡ opened (whole_of DB.speaks node.now.kind (map kind_of below.now)) node.now
            (frames self.old.«open».items)) }
        ensures first { OnOk result (self.new.first
            ≡ opened_first (whole_of DB.speaks node.now.kind (map kind_of below.now)) node.now.kind
            self.old.first) }
        ensures index { OnOk result (self.new.index
            ≡ opened_index (whole_of DB.speaks node.now.kind (map kind_of below.now)) node.now
            self.old.index nodes) }
        ensures counts { OnOk result (sum_by (λ o. o.begun) self.new.«open».items
            ≤ sum_by (λ o. o.begun) self.old.«open».items) }
        ensures grows { OnOk result
            (length self.new.«open».items ≤ length self.old.«open».items + 1) }
    {
        if is_whole(sink.dialect(), &node.kind, below) {
            push_next_whole(self.first, &node.kind, below, sink)?;
            self.first = false;
            self.index = onward(self.index, node.end, nodes);
            return Ok(());
        }
        push_start(self.first, &node.kind, sink)?;
        self.first = !is_list(&node.kind) || self.first;
        self.index += 1;
        match self.open.push(Open { node, begun: 0 }) {
            Ok(()) => Ok(()),
            Err(_) => Err(BindError::NoMemory),
        }
    }

    /// Begins a node over those, of so many nodes in all, under the innermost open node.
    fn begin<DB: Backend>(
        &mut self,
        node: &'f FlatNode,
        below: &[FlatNode],
        nodes: usize,
        sink: &mut Sink<DB>,
    ) -> Result<(), BindError>
        requires within { self.old.index < nodes }
        requires counted { sum_by (λ o. o.begun) self.old.«open».items ≤ self.old.index }
        ensures text { Pours DB.speaks
            (sunk DB.QueryBuilder.text DB.QueryBuilder.count sink.old)
            (leading DB.speaks (frames self.old.«open».items)
            ++ opening DB.speaks (whole_of DB.speaks node.now.kind (map kind_of below.now))
            node.now.kind (led_first (frames self.old.«open».items) self.old.first)) result
            (sunk DB.QueryBuilder.text DB.QueryBuilder.count sink.new) }
        ensures frames { OnOk result (frames self.new.«open».items
            ≡ opened (whole_of DB.speaks node.now.kind (map kind_of below.now)) node.now
            (with_child (frames self.old.«open».items))) }
        ensures first { OnOk result (self.new.first
            ≡ opened_first (whole_of DB.speaks node.now.kind (map kind_of below.now)) node.now.kind
            (led_first (frames self.old.«open».items) self.old.first)) }
        ensures index { OnOk result (self.new.index
            ≡ opened_index (whole_of DB.speaks node.now.kind (map kind_of below.now)) node.now
            self.old.index nodes) }
        ensures counts { OnOk result (sum_by (λ o. o.begun) self.new.«open».items
            ≤ sum_by (λ o. o.begun) self.old.«open».items + 1) }
        ensures grows { OnOk result
            (length self.new.«open».items ≤ length self.old.«open».items + 1) }
    {
        push_lead(&self.open, sink)?;
        self.first = leads_first(&self.open, self.first);
        count_child(&mut self.open);
        self.enter(node, below, nodes, sink)
    }
}

/// The nodes below the node at that index, which has that end.
fn below(nodes: &[FlatNode], index: usize, end: usize) -> &[FlatNode]
    requires { index < length nodes.now }
    ensures { result.now ≡ take (end - (index + 1)) (drop (index + 1) nodes.now) }
{
    let after = &nodes[index + 1..];
    let count = end.saturating_sub(index + 1).min(after.len());
    &after[..count]
}

/// Appends what is written of the nodes. Each turn is a step: a node that is written whole takes one, any other two, and those below one
/// that is written whole none.
pub(crate) fn write<DB: Backend, L: Ledger>(
    alloc: Global,
    nodes: &[FlatNode],
    sink: &mut Sink<DB>,
    steps: &mut Steps<L>,
) -> Result<(), BindError>
    ensures text { Pours DB.speaks (sunk DB.QueryBuilder.text DB.QueryBuilder.count sink.old)
        (told_from DB.speaks [] true 0 nodes.now) result
        (sunk DB.QueryBuilder.text DB.QueryBuilder.count sink.new) }
    ensures exact { OnOk result (steps.new ≡ steps.old + steps_of DB.speaks nodes.now) }
    ensures counted { (steps.old ≤ steps.new)
        × (steps.new ≤ steps.old + steps_of DB.speaks nodes.now) }
    ensures cost { steps.new ≤ steps.old + 2 * length nodes.now }
{
    let mut place = Place {
        index: 0,
        first: true,
        open: Vec::new(alloc),
    };
    while place.index < nodes.len() || !place.open.is_empty() {
        steps.tick();
        if innermost_has_ended(&place.open, place.index, nodes.len()) {
            place.close(sink)?;
            continue;
        }
        let node = &nodes[place.index];
        let below = below(nodes, place.index, node.end);
        place.begin(node, below, nodes.len(), sink)?;
    }
    Ok(())
}
