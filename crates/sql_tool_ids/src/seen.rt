ghost use Rattle.std.specs.Prelude.{◌≡◌, ◌≤◌, ◌<◌};
ghost use Rattle.std.specs.BTreeMap.{IsEmpty, btree_map_len};
ghost use Rattle.sql_tool_ids.specs.inside.Remembering.{IsSorted};

use sql_tool_build::NamedRequest;
use std::collections::BTreeMap;

/// How many shapes have an id before all are forgotten, where nothing else is asked for.
pub const MAX_SHAPES: usize = 16384;

/// Forgets all keys once there are so many: with `most` 0 always.
pub fn keep_within(seen: &mut BTreeMap<NamedRequest, u64>, most: usize)
    ensures full { most ≤ btree_map_len seen.old → IsEmpty seen.new }
    ensures kept { btree_map_len seen.old < most → seen.new ≡ seen.old }
    // The order is the map's own, of which a caller is told here.
    ensures was_sorted { IsSorted seen.old }
    ensures sorted { IsSorted seen.new }
{
    if seen.len() >= most {
        seen.clear();
    }
}
