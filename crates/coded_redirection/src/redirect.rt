//! Redirects the references in a host's words.
ghost use Rattle.std.specs.Prelude.{◌≡◌, ◌+◌, ◌<◌, ◌≤◌, ℕ, true, false, MatchOption, if◌then◌else◌, length, slice_index};
ghost use Rattle.mark_bitmap.specs.Marks.{is_begin};
ghost use Rattle.coded_redirection.specs.References.{is_reference_in, redirected_reference, redirected_words};

use object_coding::ObjectCoding;
use summary::laws::plan_laws;
use summary::laws::plans::planned_image_is_valid;
use summary::{Survey, WordPlaces};

/// Redirects the references of the planned objects that begin in these words of the heap, from address `first` on: each that
/// leads to a live word leads to where that goes, and each that leads to another word of the heap becomes `dead`. Headers, words
/// that lead nowhere and all that isn't a reference stay.
///
/// An object's references are those that its header counts and that are words of it and among these.
pub fn redirect_objects(
    survey: &Survey,
    coding: &ObjectCoding,
    dead: u64,
    first: u64,
    words: &mut [u64],
)
    ensures { words.new ≡ redirected_words survey.now coding.now first words.old dead }
{
    planned_image_is_valid(survey.plan());
    plan_laws();
    let targets = Targets {
        survey,
        places: survey.plan().word_places(),
        coding,
        dead,
    };
    let mut from = first;
    while let Some(a) = survey.marks().next_begin(from) {
        if a - first >= words.len() as u64 {
            return;
        }
        targets.redirect_object(a, first, words);
        from = a + 1;
    }
}

/// Where references lead.
#[derive(Drop)]
struct Targets<'a> {
    survey: &'a Survey,
    /// Where the words of the survey's plan go.
    places: WordPlaces<'a>,
    coding: &'a ObjectCoding,
    /// What takes the place of a reference to a word that no live object has.
    dead: u64,
}

impl<'a> Targets<'a> {
    /// Redirects the references of the planned object at address `a`, in words from address `first` on.
    fn redirect_object(&self, a: u64, first: u64, words: &mut [u64])
        requires same { self.now.places ≡ self.now.survey.now }
        requires begin { is_begin self.now.survey.now a ≡ true }
        requires above { first ≤ a }
        requires inside { a < first + length words.old }
        ensures length { length words.new ≡ length words.old }
        ensures words { (i : ℕ) → i < length words.old → slice_index words.new i
            ≡ (if is_reference_in self.now.survey.now self.now.coding.now first words.old a (first + i)
            then redirected_reference self.now.survey.now self.now.coding.now self.now.dead (slice_index words.old i) else slice_index words.old i) }
    {
        let at = (a - first) as usize;
        let own = self.survey.marks().size_at(a).saturating_sub(1);
        let count = self.coding.references(words[at]).min(own);
        let end = count.min((words.len() - at - 1) as u64) as usize + at + 1;
        for i in at + 1..end {
            words[i] = self.redirected(words[i]);
        }
    }

    /// The word in place of a reference.
    #[tactic(auto, unfolding(crate::specs::References::redirected_reference))]
    fn redirected(&self, word: u64) -> u64
        ensures { result ≡ redirected_reference self.now.places self.now.coding.now self.now.dead word }
    {
        plan_laws();
        let reference = self.coding.reference(word);
        if reference == 0 {
            return word;
        }
        match self.places.get(reference - 1) {
            Some(to) => self.coding.redirected(word, to + 1),
            None => self.dead,
        }
    }
}
