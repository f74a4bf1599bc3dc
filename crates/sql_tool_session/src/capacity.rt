ghost use Rattle.std.specs.Prelude.{◌≡◌};
ghost use Rattle.sql_tool_ids.specs.declared.seen.TheConstants.{MAX_SHAPES};
ghost use Rattle.sql_tool_session.specs.Session.{shapes_for};

use sql_tool_ids::MAX_SHAPES;

/// How many shapes have an id in a session before all are forgotten.
#[derive(Debug, Clone, Copy, PartialEq, Eq)]
pub struct Capacity {
    shapes: usize,
}

impl Capacity {
    /// So many shapes, as `Capacity::of(1000)`, or the usual number for 0.
    pub fn of(shapes: usize) -> Capacity
        ensures { result.shapes ≡ shapes_for shapes }
    {
        match shapes {
            0 => Capacity::usual(),
            _ => Capacity { shapes },
        }
    }

    /// The capacity of a session where nothing is said of it: 16,384 shapes.
    pub fn usual() -> Capacity
        ensures { result.shapes ≡ MAX_SHAPES }
    {
        Capacity { shapes: MAX_SHAPES }
    }

    /// How many shapes that are.
    pub fn shapes(self) -> usize
        ensures { result ≡ self.shapes }
    {
        self.shapes
    }
}
