ghost use Rattle.std.specs.Prelude.{◌≡◌, Option, Some, None};
ghost use Rattle.hardieflax_c.specs.Owning.{kept_coded};
ghost use Rattle.sql_tool_session.specs.declared.responder.Responder.{Responder};

use sql_tool_session::Responder;
use std::alloc::Global;
use std::marker::Model;

/// A responder by its address, or nothing. It is what C has of a responder. It is not `Drop`: one of a responder ends in `into_box` alone,
/// and one of nothing in `end`. So no code lets an owner of a responder go, or writes another over it.
#[repr(C)]
pub struct Owner {
    at: *mut u8,
    pub ghost kept: { Option Responder } by { kept_coded },
}

impl Model for Owner {
    ghost use Rattle.hardieflax_c.specs.Owning.{kept_at};

    ghost also_owns = { λ o. kept_at o.kept o.at };
}

impl Owner {
    /// Nothing, at any address.
    pub(crate) fn empty(at: *mut u8) -> Owner
        ensures { result.kept ≡ None }
    {
        Owner { at }
    }

    /// Returns an owner of what the box owned, by its address.
    pub(crate) fn of(responder: Box<Responder>) -> Owner
        ensures { result.kept ≡ Some responder.value }
    {
        let at = Box::into_raw(responder);
        Owner { at: at as *mut u8 }
    }

    /// Ends an owner of nothing.
    pub(crate) fn end(self)
        requires { self.kept ≡ None }
    {
        let Owner { at: _ } = self;
    }

    /// The responder, in a box again.
    pub(crate) fn into_box(self, alloc: Global) -> Box<Responder>
        requires { (kept : Responder) × (self.kept ≡ Some kept) }
        ensures { self.kept ≡ Some result.value }
    {
        let Owner { at } = self;
        unsafe { Box::from_raw(alloc, at as *mut Responder) }
    }
}
