//! Laws of texts. Each function has an empty body, and its contract is the law.
ghost use Rattle.std.specs.Prelude.{◌≡◌};
ghost use Rattle.object_heap.specs.HeapImage.{HeapImage, IsValid};
ghost use Rattle.heap_text.specs.Text.{text_of};

/// Two valid images with the same text are equal.
pub fn one_text()
    ensures { (image other : HeapImage) → IsValid image → IsValid other
        → text_of image ≡ text_of other → image ≡ other }
{}
