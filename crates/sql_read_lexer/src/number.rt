ghost use Rattle.std.specs.Prelude.{◌≡◌, Some, None, if◌then◌else◌, string_bytes};
ghost use Rattle.std.specs.Str.{IsUtf8};
ghost use Rattle.sql_grammar.specs.Spelling.{is_placeholder_number, value_of};

/// The number of a placeholder, where the digits are one.
#[tactic(auto, unfolding(sql_grammar::specs::Spelling::value_after))]
pub fn placeholder_number(digits: &[u8]) -> Option<u32>
    ensures { result ≡ (if is_placeholder_number digits.now then Some (value_of digits.now)
        else None) }
{
    if digits.is_empty() {
        return None;
    }
    if digits[0] <= 48 {
        return None;
    }
    let mut value: u64 = 0;
    for digit in digits {
        value = 10 * value + (*digit).saturating_sub(48) as u64;
        if value > 4294967295 {
            return None;
        }
    }
    Some(value as u32)
}

/// The bytes as a text.
pub fn text(bytes: Vec<u8>) -> String
    requires { IsUtf8 bytes.items }
    ensures { string_bytes result ≡ bytes.items }
{
    let Ok(text) = String::from_utf8(bytes) else {
        unreachable!()
    };
    text
}
