ghost use Rattle.std.specs.Prelude.{◌≡◌};
ghost use Rattle.sql_source.specs.Counts.{picked};

/// How often something appears. Two times and more are one answer.
#[derive(Debug, Clone, Copy, PartialEq, Eq)]
pub enum Count {
    Never,
    Once,
    MoreThanOnce,
}

/// A side of a join.
#[derive(Debug, Clone, Copy, PartialEq, Eq)]
pub enum Side {
    Left,
    Right,
}

/// Counts that are added.
pub trait Plus {
    ghost use Rattle.std.specs.Prelude.{◌≡◌};
    ghost use Rattle.sql_source.specs.declared.count.Count.{Count};
    ghost use Rattle.sql_source.specs.Counts.{sum_of};

    /// The count.
    ghost count: { Self → Count };

    /// How often something appears in both parts together: `Once` and `Once` are `MoreThanOnce`.
    fn plus(self, other: Count) -> Count
        ensures { result ≡ sum_of (count self) other };
}

impl Plus for Count {
    ghost count = { λ c. c };

    fn plus(self, other: Count) -> Count {
        match self {
            Count::Never => other,
            Count::Once => match other {
                Count::Never => Count::Once,
                Count::Once | Count::MoreThanOnce => Count::MoreThanOnce,
            },
            Count::MoreThanOnce => Count::MoreThanOnce,
        }
    }
}

/// The side on which something appears once, where it never appears on the other. None where there is no such side.
pub fn pick(left: Count, right: Count) -> Option<Side>
    ensures { result ≡ picked left right }
{
    match (left, right) {
        (Count::Once, Count::Never) => Some(Side::Left),
        (Count::Never, Count::Once) => Some(Side::Right),
        _ => None,
    }
}
