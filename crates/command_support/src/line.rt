//! Lines for standard output. Their room is allocated before anything is written, so that appending to them can't fail.
ghost use Rattle.std.specs.Prelude.{◌≡◌, ◌≤◌, ◌+◌, ◌++◌, length, decimal, string_bytes};
ghost use Rattle.std_alloc.specs.String.{string_len, string_capacity};

use itoa::Buffer;

/// Appends text for which the line has room.
pub fn push_text(line: &mut String, text: &str)
    requires room { string_len line.old + length text.now ≤ string_capacity line.old }
    ensures bytes { string_bytes line.new ≡ string_bytes line.old ++ text.now }
    ensures len { string_len line.new ≡ string_len line.old + length text.now }
    ensures capacity { string_capacity line.old ≤ string_capacity line.new }
{
    line.push_str(text).unwrap();
}

/// Appends a number. The line has room for 20 digits.
pub fn push_number(line: &mut String, number: u64)
    requires room { string_len line.old + 20 ≤ string_capacity line.old }
    ensures bytes { string_bytes line.new ≡ string_bytes line.old ++ decimal number }
    ensures len { string_len line.new ≤ string_len line.old + 20 }
    ensures capacity { string_capacity line.old ≤ string_capacity line.new }
{
    push_text(line, Buffer::new().format(number));
}
