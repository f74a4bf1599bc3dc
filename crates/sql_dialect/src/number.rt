ghost use Rattle.std.specs.Prelude.{◌≡◌, ◌++◌, OnOk, OnErr, decimal, string_bytes};

use crate::builder::NoMemory;
use itoa::Buffer;

/// Appends a sign and a number, as `$1`. Where memory runs out the text is as it was.
pub fn push_number(out: &mut String, sign: &str, number: u32) -> Result<(), NoMemory>
    ensures ok { OnOk result (string_bytes out.new ≡ string_bytes out.old ++ (sign.now ++ decimal number)) }
    ensures err { OnErr result (string_bytes out.new ≡ string_bytes out.old) }
{
    let mut buffer = Buffer::new();
    let digits = buffer.format(number);
    out.reserve(sign.len() + digits.len())?;
    // There is room, so neither fails.
    out.push_str(sign)?;
    out.push_str(digits)
}
