//! Names of files in pictures.
use std::alloc::AllocError;

/// Writes the name of a file, without its folders, as text of XML or HTML. Characters that XML has no way to write become
/// `?`, and so do all control characters.
pub fn write_name(text: &mut String, name: &str) -> Result<(), AllocError> {
    for c in name.rsplit('/').next().unwrap_or(name).chars() {
        write_char(text, c)?;
    }
    Ok(())
}

/// Writes a character as text of XML or HTML.
fn write_char(text: &mut String, c: char) -> Result<(), AllocError> {
    match c {
        '&' => text.push_str("&amp;"),
        '<' => text.push_str("&lt;"),
        '>' => text.push_str("&gt;"),
        '"' => text.push_str("&quot;"),
        '\u{fffe}' | '\u{ffff}' => text.push('?'),
        _ if c.is_control() => text.push('?'),
        _ => text.push(c),
    }
}
