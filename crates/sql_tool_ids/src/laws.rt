//! What holds of the ids of a session, by their definitions alone.

ghost use Rattle.std.specs.Prelude.{◌≡◌, ◌<◌, ◌+◌, List, ℕ, [], length};
ghost use Rattle.sql_schema.specs.Declarations.{Declarations};
ghost use Rattle.sql_tool_build.specs.Output.{AreLines, Line, StatementRequest};
ghost use Rattle.sql_tool_build.specs.Shared.{OneIdServes};
ghost use Rattle.sql_tool_ids.specs.Memory.{AreLinesAfter, Memory, no_memory, own_ids};

/// Of two lines of one id, what was prepared for the one statement serves for the other, whatever was forgotten between them. And requests
/// have one list of lines.
pub fn ids_are_given_once()
    ensures one_id { (most : ℕ) (schema : Declarations) (rs : List StatementRequest)
        (ls : List Line) → AreLinesAfter most schema no_memory rs ls → OneIdServes ls }
    ensures one_list { (most : ℕ) (schema : Declarations) (m : Memory)
        (rs : List StatementRequest) (ls ks : List Line) → AreLinesAfter most schema m rs ls
        → AreLinesAfter most schema m rs ks → ls ≡ ks }
{}

/// Where fewer ids are given than are kept nothing is forgotten: the lines are those of one document, so two lines of one shape have one id.
pub fn few_ids_are_those_of_one_document()
    ensures { (most : ℕ) (schema : Declarations) (rs : List StatementRequest)
        (ls : List Line) → own_ids 1 ls < most → AreLinesAfter most schema no_memory rs ls
        → AreLines schema [] rs ls }
{}
