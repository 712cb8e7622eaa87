//! Arguments that begin with the name of an option.
ghost use Rattle.std.specs.Prelude.{IsTrue};
ghost use Rattle.command_line.specs.CommandLine.{HaveBeginning};

/// Whether one of the arguments begins with this text.
pub(crate) fn have_beginning(words: &[String], text: &str) -> bool
    ensures { IsTrue result → HaveBeginning text.now words.now }
{
    for word in words {
        if word.as_bytes().starts_with(text.as_bytes()) {
            return true;
        }
    }
    false
}
