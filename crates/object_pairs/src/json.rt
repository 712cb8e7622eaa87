//! A comparison as a JSON object.
ghost use Rattle.std.specs.Prelude.{◌≡◌, ◌++◌, codes, OnOk, string_bytes};
ghost use Rattle.object_pairs.specs.Json.{comparison_object, conflict_members, counts_members, objects_members, others_text, space_object, spaces_list, verdict_member, verdict_word};

use crate::comparison::{Comparison, Verdict};
use crate::figures::SpaceFigures;
use std::alloc::AllocError;

impl Comparison {
    /// Appends the comparison as a JSON object, on a line.
    pub fn push_object(&self, text: &mut String) -> Result<(), AllocError>
        ensures { OnOk result (string_bytes text.new ≡ string_bytes text.old ++ comparison_object self.now) }
    {
        self.push_members(text)?;
        push_spaces(&self.spaces, text)?;
        text.push_str("]}\n")?;
        Ok(())
    }

    /// Appends the counts, the verdict, and the name of the list of spaces.
    fn push_members(&self, text: &mut String) -> Result<(), AllocError>
        ensures { OnOk result (string_bytes text.new ≡ string_bytes text.old ++ counts_members self.now) }
    {
        self.push_objects(text)?;
        self.push_differences(text)?;
        push_verdict(self.verdict(), text)?;
        Ok(())
    }

    /// Appends how many objects there are.
    fn push_objects(&self, text: &mut String) -> Result<(), AllocError>
        ensures { OnOk result (string_bytes text.new ≡ string_bytes text.old ++ objects_members self.now) }
    {
        let (before, after, paired, changed) = (self.before, self.after, self.paired, self.changed);
        write!(
            text,
            "{{\"before\":{before},\"after\":{after},\"paired\":{paired},\"changed\":{changed},"
        )
    }

    /// Appends how many references are in each conflict.
    fn push_differences(&self, text: &mut String) -> Result<(), AllocError>
        ensures { OnOk result (string_bytes text.new ≡ string_bytes text.old ++ conflict_members self.now) }
    {
        let (cleared, filled, elsewhere) = (self.cleared, self.filled, self.elsewhere);
        write!(
            text,
            "\"cleared\":{cleared},\"filled\":{filled},\"elsewhere\":{elsewhere},"
        )
    }
}

/// Appends a verdict, and the name of the list of spaces.
fn push_verdict(verdict: Verdict, text: &mut String) -> Result<(), AllocError>
    ensures { OnOk result (string_bytes text.new ≡ string_bytes text.old ++ verdict_member verdict) }
{
    text.push_str("\"verdict\":\"")?;
    text.push_str(verdict_word(verdict))?;
    text.push_str("\",\"spaces\":[")?;
    Ok(())
}

/// The word for a verdict.
fn verdict_word(verdict: Verdict) -> &'static str
    ensures { result.now ≡ verdict_word verdict }
{
    match verdict {
        Verdict::Slid => "slid",
        Verdict::Broken => "broken",
        Verdict::Incomparable => "not comparable",
    }
}

/// Appends the objects of spaces, with commas between.
fn push_spaces(spaces: &[SpaceFigures], text: &mut String) -> Result<(), AllocError>
    ensures { OnOk result (string_bytes text.new ≡ string_bytes text.old ++ spaces_list spaces.now) }
{
    let Some((first, others)) = spaces.split_first() else {
        return Ok(());
    };
    push_space(first, text)?;
    push_others(others, text)?;
    Ok(())
}

/// Appends the objects of spaces, with a comma before each.
fn push_others(spaces: &[SpaceFigures], text: &mut String) -> Result<(), AllocError>
    ensures { OnOk result (string_bytes text.new ≡ string_bytes text.old ++ others_text spaces.now) }
{
    for space in spaces {
        push_other(space, text)?;
    }
    Ok(())
}

/// Appends a comma and the object of a space.
fn push_other(space: &SpaceFigures, text: &mut String) -> Result<(), AllocError>
    ensures { OnOk result (string_bytes text.new ≡ string_bytes text.old ++ (codes "," ++ space_object space.now)) }
{
    text.push_str(",")?;
    push_space(space, text)?;
    Ok(())
}

/// Appends the object of a space.
fn push_space(space: &SpaceFigures, text: &mut String) -> Result<(), AllocError>
    ensures { OnOk result (string_bytes text.new ≡ string_bytes text.old ++ space_object space.now) }
{
    let (start, paired, stayed) = (space.start, space.paired, space.stayed);
    let (descents, holes) = (space.descents, space.holes);
    let (prefix, end) = (space.prefix, space.prefix_end);
    write!(
        text,
        "{{\"start\":{start},\"paired\":{paired},\"stayed\":{stayed},\"descents\":{descents},"
    )?;
    write!(
        text,
        "\"holes\":{holes},\"prefix\":{prefix},\"prefix_end\":{end}}}"
    )?;
    Ok(())
}
