ghost use Rattle.std.specs.Prelude.{◌≡◌, ◌≤◌, ◌<◌, ◌∷◌, ◌++◌, List, ℕ, [], Some, None, length, true};
ghost use Rattle.sql_schema.specs.Declarations.{Declarations};
ghost use Rattle.sql_tool_document.specs.Documents.{Document};
ghost use Rattle.sql_tool_build.specs.Output.{IsOutput, Line, lines_text};
ghost use Rattle.sql_tool_build.specs.Shared.{OneIdServes};
ghost use Rattle.sql_tool_ids.specs.Memory.{own_ids};
ghost use Rattle.sql_tool_ids.specs.declared.seen.TheConstants.{MAX_SHAPES};
ghost use Rattle.sql_tool_session.specs.Session.{AreLinesOf, Asked, asked_for};
ghost use Rattle.sql_tool_run.specs.Limits.{greatest_input};
ghost use Rattle.sql_tool_stream.specs.Causes.{HasRisen};
ghost use Rattle.sql_tool_lines.specs.Conversation.{Conversed};
ghost use Rattle.sql_tool_lines.specs.Turns.{Adds, Event};
ghost use Rattle.sql_tool_lines.specs.declared.listener.Stop.TheVariants as stop;
ghost use Rattle.sql_tool_talk.specs.Talk.{AreAnswered, AreAnsweredBy, Opened, Talk, anew, session_after};
ghost use Rattle.sql_tool_talk.specs.Resets.{is_reset};

use crate::talker::Talker;
use sql_tool_lines::{Peer, Stop, converse};
use std::alloc::Global;

/// Answers the lines of a peer, each before the next read: the first line is a document, whose schema the session has from then on, and
/// each further line a document that declares no table. A line is answered by a line for each of its requests, as `build` writes it,
/// and an empty line. Before the empty line stands a line with an error where the line is no such document, has too many bytes, or has a
/// request that nests too deep, which ends its requests; the session goes on. The line `{"reset":true}` is answered by the empty line alone:
/// from there on ids are counted from 1 again, over the same schema and policies.
pub fn talk<P: Peer>(alloc: Global, peer: &mut P) -> Result<(), Stop>
    // At each read, each line that has ended is answered, by what was written until then, and no more; and in the end each line is.
    // Where a read or a write fails or memory runs out, some of the lines are answered, in order, the last one in part only where a
    // write failed.
    ensures conversed { (es : List Event) × Adds (P.history peer.old) (P.history peer.new) es
        × Conversed AreAnswered AreAnswered es result }
    // Lines are answered by one text.
    ensures one_text { (lines : List (List ℕ)) (a b : List ℕ) → AreAnswered lines a
        → AreAnswered lines b → a ≡ b }
    // The requests' lines of all answers since the last reset, one after the other, are the lines of what is made of all requests since
    // then, each for the tenant of its line, with ids counted over all.
    ensures one_list { (lines : List (List ℕ)) (text output : List ℕ) (o : Opened)
        → Talk None [] lines text output → session_after None lines ≡ Some o
        → AreAnsweredBy o.schema o.asked output }
    // A reset cuts the conversation: the lines before it are answered as if there were none after, and those after it as a conversation
    // of their own, over the schema and the policies of the first line.
    ensures cut { (lines more : List (List ℕ)) (line text output : List ℕ) (o : Opened)
        → session_after None lines ≡ Some o → length line ≤ greatest_input → is_reset line ≡ true
        → Talk None [] (lines ++ line ∷ more) text output → (first rest before : List ℕ)
        × (text ≡ first ++ 10 ∷ rest) × Talk None [] lines first before
        × Talk (Some (anew o)) [] more rest output }
    // Of two lines of one id, what was prepared for the one statement serves for the other.
    ensures one_id { (schema : Declarations) (asked : List Asked) (ls : List Line)
        → AreLinesOf MAX_SHAPES schema asked ls → OneIdServes ls }
    // While fewer ids were given than are kept, and without policies, they are the output of one document: that with all requests.
    ensures one_document { (d : Document) (ls : List Line)
        → AreLinesOf MAX_SHAPES d.schema (asked_for None d.requests) ls
        → own_ids 1 ls < MAX_SHAPES
        → IsOutput d (lines_text ls) }
    // It stops for a fault only where the peer counted one, and does where the peer counted one.
    ensures read_fault { result ≡ Err stop.ReadFault
        → HasRisen (P.read_faults peer.old) (P.read_faults peer.new) }
    ensures write_fault { result ≡ Err stop.WriteFault
        → HasRisen (P.write_faults peer.old) (P.write_faults peer.new) }
    ensures no_read_fault { (result ≡ Err stop.ReadFault → ⊥)
        → P.read_faults peer.new ≡ P.read_faults peer.old }
    ensures no_write_fault { (result ≡ Err stop.WriteFault → ⊥)
        → P.write_faults peer.new ≡ P.write_faults peer.old }
{
    converse(alloc, peer, &mut Talker::new(alloc))
}
