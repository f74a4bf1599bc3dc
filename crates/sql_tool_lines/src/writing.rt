ghost use Rattle.std.specs.Prelude.{◌≡◌, ◌++◌, List, ℕ, OnOk, OnErr};
ghost use Rattle.sql_tool_stream.specs.Causes.{HasCause};
ghost use Rattle.sql_tool_lines.specs.Turns.{Adds, AreWrites, Event};

use crate::peer::Peer;
use sql_tool_stream::Failed;

/// Writes the whole text, or a prefix of it where a write fails.
pub(crate) fn write_all<P: Peer>(peer: &mut P, text: &[u8]) -> Result<(), Failed>
    ensures all { OnOk result ((es : List Event) × Adds (P.history peer.old) (P.history peer.new) es
        × AreWrites es text.now) }
    ensures prefix { OnErr result ((es : List Event) × (done rest : List ℕ)
        × Adds (P.history peer.old) (P.history peer.new) es × AreWrites es done
        × (text.now ≡ done ++ rest)) }
    ensures cause { HasCause (P.write_faults peer.old) (P.write_faults peer.new) result }
    ensures other { P.read_faults peer.new ≡ P.read_faults peer.old }
{
    let mut rest = text;
    while !rest.is_empty() {
        let count = peer.write(rest)?;
        rest = &rest[count..];
    }
    Ok(())
}
