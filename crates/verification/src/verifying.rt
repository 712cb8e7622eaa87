ghost use Rattle.std.specs.Prelude.{◌≡◌, ◌↔◌, IfOk, IfErr};
ghost use Rattle.image_streams.specs.declared.fault.Fault.TheVariants.{Memory};
ghost use Rattle.summary.specs.Compaction.{compact};
ghost use Rattle.summary.specs.NewAddresses.{new_top};
ghost use Rattle.verification.specs.Verdict.{IsVerdict, IsVerdictBelow};
ghost use Rattle.verification.specs.declared.verdict.Verdict.TheVariants.{Same};

use crate::comparison::Comparison;
use crate::verdict::Verdict;
use crate::verifier::Verifier;
use heap_image::{Fault, Image};
use std::alloc::Global;
use summary::Survey;

/// Says whether `after` is the compaction of `before`, and if not, returns the first difference: in the shape, else the
/// words, else the live list, else the roots.
///
/// Takes linear time. It allocates only the marks and the plan of `before`, and no copy of the heap. Its only error is
/// `Fault::Memory`, if memory runs out.
pub fn verify<V: Verifier>(
    alloc: Global,
    before: &Image,
    after: &Image,
    verifier: &V,
) -> Result<Verdict, Fault>
    requires start { V.may_start }
    ensures verdict { IfOk result (λ verdict. IsVerdict (compact before.now) after.now verdict) }
    ensures same { IfOk result (λ verdict. verdict ≡ Same ↔ after.now ≡ compact before.now) }
    ensures fault { IfErr result (λ fault. fault ≡ Memory) }
{
    let survey = Survey::of(alloc, before, verifier)?;
    Ok(Comparison::verdict(before, after, &survey, verifier))
}

/// Like [`verify`], but words at or above the new top count as equal, whatever they are.
pub fn verify_below_top<V: Verifier>(
    alloc: Global,
    before: &Image,
    after: &Image,
    verifier: &V,
) -> Result<Verdict, Fault>
    requires start { V.may_start }
    ensures verdict { IfOk result (λ verdict. IsVerdictBelow (new_top before.now) (compact before.now) after.now verdict) }
    ensures fault { IfErr result (λ fault. fault ≡ Memory) }
{
    let survey = Survey::of(alloc, before, verifier)?;
    Ok(Comparison::verdict_below_top(before, after, &survey, verifier))
}
