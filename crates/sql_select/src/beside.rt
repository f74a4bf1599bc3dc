#![tactic(auto)]

ghost use Rattle.std.specs.Prelude.{◌≡◌, IfOk, IsOk, Ok};

use sql_schema::NoMemory;

/// A statement and what was made for it; an error drops the statement.
///
/// A `?` over a statement lets each of its clauses go where it stands, and what can be in each is then proved with what can be in
/// all others: minutes for each `?`. Here one call lets it go.
pub(crate) fn beside<S: Drop, T>(
    statement: S,
    made: Result<T, NoMemory>,
) -> Result<(S, T), NoMemory>
    ensures statement { IfOk result (λ p. p.0 ≡ statement) }
    ensures made { IfOk result (λ p. made ≡ Ok p.1) }
    ensures kept { IsOk made → IsOk result }
{
    match made {
        Ok(made) => Ok((statement, made)),
        Err(error) => Err(error),
    }
}
