//! The words of a small heap, for a page that shows them.
ghost use Rattle.std.specs.Prelude.{◌≡◌};

use heap_image::Image;
use std::alloc::{AllocError, Global};
use summary::Survey;

/// The most words of a heap whose words are shown, and the most words of its regions.
const MOST_WORDS: u64 = 256;

const MOST_IN_A_REGION: u64 = 32;

/// Two lines, for the script of a page: the address, size, number of references and new address of each live object; and the
/// words. Empty if the heap is too large to show its words.
pub fn heap_words(alloc: Global, image: &Image, survey: &Survey) -> Result<String, AllocError>
    requires { survey.now ≡ image.now }
{
    let mut text = String::new(alloc);
    if image.len() <= MOST_WORDS && image.region_words() <= MOST_IN_A_REGION {
        write_objects(&mut text, image, survey)?;
        write_words(&mut text, image)?;
    }
    Ok(text)
}

/// Writes the line of the objects.
fn write_objects(text: &mut String, image: &Image, survey: &Survey) -> Result<(), AllocError>
    requires { survey.now ≡ image.now }
{
    text.push_str("objects")?;
    for a in image.live() {
        let (size, references) = (image.size_at(*a), image.references_at(*a));
        let target = survey.plan().new_address(*a);
        write!(text, " {a} {size} {references} {target}")?;
    }
    text.push_str("\n")
}

/// Writes the line of the words.
fn write_words(text: &mut String, image: &Image) -> Result<(), AllocError> {
    text.push_str("words")?;
    for a in 0..image.len() {
        write!(text, " {}", image.word(a))?;
    }
    text.push_str("\n")
}
