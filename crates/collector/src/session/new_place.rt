//! Where a collection takes a word.
ghost use Rattle.collector.specs.NewPlaces.{IsNewPlace};

use summary::WordPlaces;

/// Where a collection takes a word of its heap.
#[derive(Debug, Clone, Copy, PartialEq, Eq)]
pub enum NewPlace {
    /// There is no word at this address.
    Outside,
    /// No live object has the word.
    NotLive,
    /// To this address. The words of an object stay side by side.
    At(u64),
}

impl NewPlace {
    /// Where the word at this address goes.
    #[inline]
    pub fn of(places: &WordPlaces<'_>, address: u64) -> NewPlace
        ensures { IsNewPlace places.now address result }
    {
        if address >= places.words() {
            return NewPlace::Outside;
        }
        match places.get(address) {
            Some(to) => NewPlace::At(to),
            None => NewPlace::NotLive,
        }
    }
}
