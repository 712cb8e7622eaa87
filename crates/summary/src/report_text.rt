//! The report: the table of the regions as text.

ghost use Rattle.std.specs.Prelude.{◌≡◌, ◌++◌, ◌∷◌, IfOk, OnOk, string_bytes, codes, decimal};
ghost use Rattle.std.specs.Option.{option_map_or};
ghost use Rattle.summary.specs.Report.{in_column, row_of, report};

use crate::region_data::RegionData;
use crate::region_table::RegionTable;
use std::alloc::{AllocError, Global};

/// The text of the table, a line for each region.
pub(crate) fn report_of_table(alloc: Global, table: &RegionTable) -> Result<String, AllocError>
    ensures { IfOk result (λ text. string_bytes text ≡ report table.now) }
{
    let mut text = String::new(alloc);
    for (r, region) in table.regions().iter().enumerate() {
        write_line(&mut text, r as u64, region.to_data())?;
    }
    Ok(text)
}

fn write_line(text: &mut String, r: u64, region: RegionData) -> Result<(), AllocError>
    ensures { OnOk result (string_bytes text.new ≡ string_bytes text.old ++ row_of r region) }
{
    write_column(text, r)?;
    write_next_column(text, u64::from(region.partial))?;
    write_next_column(text, u64::from(region.live))?;
    write_next_column(text, region.destination)?;
    write_next_column(text, u64::from(region.count))?;
    write_source(text, region.source)?;
    text.push_str("\n")?;
    Ok(())
}

/// Writes a space and a region's source, or `-` if it has none.
fn write_source(text: &mut String, source: Option<u32>) -> Result<(), AllocError>
    ensures { OnOk result (string_bytes text.new
        ≡ string_bytes text.old ++ 32 ∷ in_column (option_map_or decimal source (codes "-"))) }
{
    match source {
        Some(source) => write_next_column(text, u64::from(source)),
        None => text.push_str("        -"),
    }
}

/// Writes a space and a number.
fn write_next_column(text: &mut String, n: u64) -> Result<(), AllocError>
    ensures { OnOk result (string_bytes text.new ≡ string_bytes text.old ++ 32 ∷ in_column (decimal n)) }
{
    text.push_str(" ")?;
    write_column(text, n)
}

/// Writes a number, right-aligned in 8 columns.
fn write_column(text: &mut String, n: u64) -> Result<(), AllocError>
    ensures { OnOk result (string_bytes text.new ≡ string_bytes text.old ++ in_column (decimal n)) }
{
    write!(text, "{n:>8}")
}
