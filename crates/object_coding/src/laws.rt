//! Laws of layouts, for callers' proofs, which have no other way to them. The function does nothing: its contract is the law.
ghost use Rattle.std.specs.Prelude.{◌≡◌, ℕ, None};
ghost use Rattle.object_heap.specs.Layout.{IsCoding};
ghost use Rattle.object_coding.specs.declared.object_layout.ObjectLayout.{ObjectLayout};
ghost use Rattle.object_coding.specs.ObjectLayout.{FitsHeaders, coding_of};
ghost use Rattle.object_coding.specs.LayoutFault.{layout_fault};

/// A layout has no fault exactly if its numbers fit headers and each other.
#[inline]
pub fn layouts_without_faults_fit()
    ensures headers { (layout : ObjectLayout) (words : ℕ) → layout_fault layout words ≡ None → FitsHeaders layout }
    ensures lawful { (layout : ObjectLayout) (words : ℕ) → layout_fault layout words ≡ None → IsCoding (coding_of layout words) words }
    ensures faultless { (layout : ObjectLayout) (words : ℕ) → FitsHeaders layout → IsCoding (coding_of layout words) words
        → layout_fault layout words ≡ None }
{}
