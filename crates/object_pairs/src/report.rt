//! The report of a comparison.
ghost use Rattle.std.specs.Prelude.{◌≡◌, ◌++◌, ℕ, List, IfOk, string_bytes};
ghost use Rattle.object_pairs.specs.Json.{comparison_object};
ghost use Rattle.object_pairs.specs.Pairing.{IsPairing};
ghost use Rattle.object_pairs.specs.Report.{IsReportOf, IsShown};
ghost use Rattle.object_pairs.specs.Text.{comparison_text};

mod details;

use crate::comparison::{Comparison, Verdict};
use crate::graph::Graph;
use crate::paired::Paired;
use crate::pairing::walk::pair_objects;
use details::details_of;
use std::alloc::{AllocError, Global};

/// How a comparison is reported.
#[derive(Clone, Copy)]
pub struct Manner {
    /// Whether as a JSON object, without details.
    pub json: bool,
    /// Whether holes, changed data and conflicts are listed, too.
    pub explain: bool,
}

/// The report of a comparison.
#[derive(Drop)]
pub struct Report {
    /// In whole lines.
    pub text: String,
    pub verdict: Verdict,
}

/// Pairs the objects of a heap before and after a collection, and reports what became of them. The classes have these names.
///
/// Memory is the only error.
pub fn compare_heaps(
    alloc: Global,
    before: &Graph,
    after: &Graph,
    names: &[String],
    manner: Manner,
) -> Result<Report, AllocError>
    ensures { IfOk result (λ report. IsReportOf before.now after.now manner.json (string_bytes report.text) report.verdict) }
{
    let pairing = pair_objects(alloc, before, after)?;
    let paired = Paired {
        before,
        after,
        pairing: &pairing,
    };
    report_of(alloc, &paired, names, manner)
}

/// Reports what became of paired objects.
fn report_of(
    alloc: Global,
    paired: &Paired<'_>,
    names: &[String],
    manner: Manner,
) -> Result<Report, AllocError>
    requires { IsPairing paired.now.before.now.objects.items paired.now.after.now.objects.items paired.now.pairing.now }
    ensures { IfOk result (λ report. IsReportOf paired.now.before.now paired.now.after.now manner.json
        (string_bytes report.text) report.verdict) }
{
    let comparison = Comparison::of(alloc, paired)?;
    let verdict = comparison.verdict();
    let text = shown(alloc, paired, &comparison, names, manner)?;
    Ok(Report { text, verdict })
}

/// A comparison as an object, or as lines with details behind.
fn shown(
    alloc: Global,
    paired: &Paired<'_>,
    comparison: &Comparison,
    names: &[String],
    manner: Manner,
) -> Result<String, AllocError>
    ensures { IfOk result (λ text. IsShown comparison.now manner.json (string_bytes text)) }
{
    if manner.json {
        let text = object_of(alloc, comparison)?;
        return Ok(text);
    }
    let details = details_of(alloc, paired, comparison, names, manner.explain)?;
    let text = text_of(alloc, comparison, &details)?;
    Ok(text)
}

/// A comparison as a JSON object, on a line.
fn object_of(alloc: Global, comparison: &Comparison) -> Result<String, AllocError>
    ensures { IfOk result (λ text. string_bytes text ≡ comparison_object comparison.now) }
{
    let mut text = String::new(alloc);
    comparison.push_object(&mut text)?;
    Ok(text)
}

/// A comparison as lines, with these details behind.
fn text_of(alloc: Global, comparison: &Comparison, details: &str) -> Result<String, AllocError>
    ensures { IfOk result (λ text. (details : List ℕ) × (string_bytes text ≡ comparison_text comparison.now ++ details)) }
{
    let mut text = String::new(alloc);
    comparison.push_report(&mut text)?;
    text.push_str(details)?;
    Ok(text)
}
