ghost use Rattle.std.specs.Prelude.{◌≡◌, option_copied};
ghost use Rattle.sql_tool_read.specs.Input.{input_text as text_in, without_newline as before_newline};

/// The bytes without one newline at their end.
#[tactic(auto, unfolding(crate::specs::Input::without_newline))]
fn without_newline(bytes: &[u8]) -> &[u8]
    ensures { result.now ≡ before_newline bytes.now }
{
    match bytes {
        [text @ .., b'\n'] => text,
        _ => bytes,
    }
}

/// The text that an input holds: all of it but for one newline at its end, where that is UTF-8.
pub fn input_text(bytes: &[u8]) -> Option<&str>
    ensures { option_copied result ≡ text_in bytes.now }
{
    std::str::from_utf8(without_newline(bytes)).ok()
}
