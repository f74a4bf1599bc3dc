//! What is said of sessions by their definitions alone.

ghost use Rattle.std.specs.Prelude.{◌≡◌, ◌<◌, List, ℕ, None, Some};
ghost use Rattle.sql_schema.specs.Declarations.{Declarations};
ghost use Rattle.sql_tool_build.specs.Output.{IsOutput, Line, lines_text};
ghost use Rattle.sql_tool_build.specs.Shared.{OneIdServes};
ghost use Rattle.sql_tool_document.specs.Documents.{Document};
ghost use Rattle.sql_tool_guard.specs.Output.{IsGuardedOutput};
ghost use Rattle.sql_tool_guard.specs.Tenants.{Tenant};
ghost use Rattle.sql_tool_ids.specs.Memory.{own_ids};
ghost use Rattle.sql_tool_session.specs.Session.{AreLinesOf, Asked, HasAnswered, IsGuardedCall, IsGuardedOpening, IsPlainCall, IsPlainOpening, asked_for, capacity_of};
ghost use Rattle.sql_tool_session.specs.declared.session.Session.{Session};

/// Without policies a session is opened as `build` reads the bytes, and so it reads what follows.
pub fn sessions_without_policies_are_plain()
    ensures opening { (bytes : List ℕ) → IsPlainOpening bytes }
    ensures call { (session : Session) (bytes : List ℕ) → IsPlainCall session bytes }
{}

/// With policies each document of a session asks for a tenant, so that no call answers an unguarded text.
pub fn sessions_with_policies_have_tenants()
    ensures opening { (bytes : List ℕ) → IsGuardedOpening bytes }
    ensures call { (session : Session) (bytes : List ℕ) → IsGuardedCall session bytes }
{}

/// The text that a session has answered is the lines of its requests, and of two lines of one id, what was prepared for the one serves for the
/// other. While fewer ids were given than the capacity, what it has answered for nobody in particular is the output of `build` for one
/// document with all requests, and what it has answered for one tenant that of `tenant`. After a reset a session has answered nothing, so all
/// of this holds between resets.
pub fn answers_are_outputs()
    ensures lines { (schema : Declarations) (asked : List Asked) (text : List ℕ)
        (session : Session) → HasAnswered schema asked text session
        → (ls : List Line) × AreLinesOf (capacity_of session) schema asked ls
        × (text ≡ lines_text ls) }
    ensures one_id { (most : ℕ) (schema : Declarations) (asked : List Asked) (ls : List Line)
        → AreLinesOf most schema asked ls → OneIdServes ls }
    ensures output { (most : ℕ) (d : Document) (ls : List Line)
        → AreLinesOf most d.schema (asked_for None d.requests) ls → own_ids 1 ls < most
        → IsOutput d (lines_text ls) }
    ensures guarded { (most : ℕ) (d : Document) (t : Tenant) (ls : List Line)
        → AreLinesOf most d.schema (asked_for (Some t) d.requests) ls → own_ids 1 ls < most
        → IsGuardedOutput d t (lines_text ls) }
{}
