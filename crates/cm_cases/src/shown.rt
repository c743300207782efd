//! Texts as they are shown within a line.
ghost use Rattle.std.specs.Prelude.{◌≡◌, ◌<◌, ◌++◌, ◌∷◌, [], OnOk, string_bytes};
ghost use Rattle.std.specs.Char.{digit_char};
ghost use Rattle.cm_cases.specs.Shown.{four_digits, is_hidden, is_numbered_in_json, is_other_space, is_widthless};
ghost use Rattle.cm_cases.specs.Shown.{json_char, numbered_char, shown_char, shown_json, shown_text};

use std::alloc::AllocError;

/// Whether a character can break, turn or hide a line.
fn is_hidden(c: char) -> bool
    ensures { result ≡ is_hidden c }
{
    matches!(
        c,
        '\u{0}'..='\u{1f}'
            | '\u{7f}'..='\u{9f}'
            | '\u{2028}'..='\u{2029}'
            | '\u{61c}'
            | '\u{200e}'..='\u{200f}'
            | '\u{202a}'..='\u{202e}'
            | '\u{2066}'..='\u{2069}'
    )
}

/// Whether a character is white space that looks like a space and isn't U+0020.
fn is_other_space(c: char) -> bool
    ensures { result ≡ is_other_space c }
{
    c.is_whitespace() && c != ' '
}

/// Whether a character joins or parts others and has no width.
fn is_widthless(c: char) -> bool
    ensures { result ≡ is_widthless c }
{
    matches!(c, '\u{200b}' | '\u{2060}' | '\u{feff}')
}

/// Whether JSON text shows a character by its number.
fn is_numbered_in_json(c: char) -> bool
    ensures { result ≡ is_numbered_in_json c }
{
    is_hidden(c) || is_other_space(c) || is_widthless(c)
}

/// Adds a hexadecimal digit, in lower case.
fn add_digit(text: &mut String, digit: u32) -> Result<(), AllocError>
    requires { digit < 16 }
    ensures { OnOk result
        (string_bytes text.new ≡ string_bytes text.old ++ digit_char digit ∷ []) }
{
    match char::from_digit(digit, 16) {
        Some(c) => text.push(c),
        None => Ok(()),
    }
}

/// Adds the four lowest hexadecimal digits of a number.
fn add_number(text: &mut String, number: u32) -> Result<(), AllocError>
    ensures { OnOk result (string_bytes text.new
        ≡ string_bytes text.old ++ four_digits number) }
{
    add_digit(text, number / 4096 % 16)?;
    add_digit(text, number / 256 % 16)?;
    add_digit(text, number / 16 % 16)?;
    add_digit(text, number % 16)
}

/// Adds a character by its number.
fn add_numbered(text: &mut String, c: char) -> Result<(), AllocError>
    ensures { OnOk result (string_bytes text.new ≡ string_bytes text.old ++ numbered_char c) }
{
    text.push_str("\\u")?;
    add_number(text, c as u32)
}

/// Adds a character of JSON text: by its number, where it would look like another or like none.
fn add_json_char(text: &mut String, c: char) -> Result<(), AllocError>
    ensures { OnOk result (string_bytes text.new ≡ string_bytes text.old ++ json_char c) }
{
    if is_numbered_in_json(c) {
        add_numbered(text, c)
    } else {
        text.push(c)
    }
}

/// Adds a character as it is shown within a line.
fn add_char(text: &mut String, c: char) -> Result<(), AllocError>
    ensures { OnOk result (string_bytes text.new ≡ string_bytes text.old ++ shown_char c) }
{
    match c {
        '\\' => text.push_str("\\\\"),
        '\u{8}' => text.push_str("\\b"),
        '\t' => text.push_str("\\t"),
        '\n' => text.push_str("\\n"),
        '\u{c}' => text.push_str("\\f"),
        '\r' => text.push_str("\\r"),
        _ if is_hidden(c) => add_numbered(text, c),
        _ => text.push(c),
    }
}

/// Adds a text as it is shown within a line: a backslash is doubled, five control characters have a letter, and each other
/// character that can break, turn or hide the line has its number.
///
/// # Errors
/// Only where there is no memory for it.
pub fn add_shown(text: &mut String, added: &str) -> Result<(), AllocError>
    ensures { OnOk result
        (string_bytes text.new ≡ string_bytes text.old ++ shown_text added.now) }
{
    for c in added.chars() {
        add_char(text, c)?;
    }
    Ok(())
}

/// Adds JSON text as it is shown within a line: each character that can break, turn or hide the line has its number, and so has
/// white space other than U+0020, and what has no width. In compact JSON such characters stand within strings alone, so what is
/// shown means the same.
///
/// # Errors
/// Only where there is no memory for it.
pub fn add_shown_json(text: &mut String, json: &str) -> Result<(), AllocError>
    ensures { OnOk result
        (string_bytes text.new ≡ string_bytes text.old ++ shown_json json.now) }
{
    for c in json.chars() {
        add_json_char(text, c)?;
    }
    Ok(())
}
