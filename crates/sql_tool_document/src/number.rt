ghost use Rattle.std.specs.Prelude.{◌≡◌, ◌<◌, ◌==◌, IsTrue, length, option_map};
ghost use Rattle.std.specs.Prelude.{slice_index, true, false};
ghost use Rattle.sql_tool_document.specs.inside.Seen.{if_whole, num_from, num_of, num_of_whole};

use fast_float::Numeral;

/// A whole number of 64 bits.
#[derive(Debug, Clone, Copy, PartialEq, Eq)]
pub(crate) enum Whole {
    /// Of a text with no sign.
    Natural(u64),
    /// Below zero.
    Negative(i64),
}

/// The whole number of 64 bits that a JSON number's text writes, where it is one.
/// `-0`, `1.0` and `1e2` are none.
pub(crate) fn whole_number(text: &str) -> Option<Whole>
    ensures { option_map num_of_whole result ≡ if_whole (num_of text.now) }
{
    let bytes = text.as_bytes();
    if has_minus(bytes) {
        negative(&Numeral::scan(&bytes[1..]))
    } else {
        natural(&Numeral::scan(bytes))
    }
}

/// Whether the first byte is a minus sign.
fn has_minus(bytes: &[u8]) -> bool
    ensures value { result ≡ (slice_index bytes.now 0 == 45) }
    ensures some { IsTrue result → 0 < length bytes.now }
{
    !bytes.is_empty() && bytes[0] == b'-'
}

/// The number that a numeral with no sign writes, where it is whole and of 64 bits.
fn natural(numeral: &Numeral<'_>) -> Option<Whole>
    ensures { option_map num_of_whole result ≡ if_whole (num_from false numeral.now) }
{
    Some(Whole::Natural(numeral.to_u64()?))
}

/// The number that a numeral writes after a minus sign, where it is whole, of 64 bits and not 0.
fn negative(numeral: &Numeral<'_>) -> Option<Whole>
    ensures { option_map num_of_whole result ≡ if_whole (num_from true numeral.now) }
{
    let n = numeral.to_i64(true)?;
    if n < 0 {
        Some(Whole::Negative(n))
    } else {
        None
    }
}
