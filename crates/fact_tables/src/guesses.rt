//! Where the firms of a cut are looked for first.
use setoff_model::limits::MOST_FIRMS;

/// Of each party of a cut, the place at which its firm was found last in a table, and at first 0.
///
/// No clause speaks of it: a guess may be wrong, and a firm that does not stand there is found by an index.
#[derive(Drop)]
pub(crate) struct Guesses {
    places: [u16; MOST_FIRMS],
}

impl Guesses {
    /// No firm was found. It takes no memory.
    pub(crate) fn new() -> Guesses {
        Guesses {
            places: [0; MOST_FIRMS],
        }
    }

    /// Where the firm of a party is looked for first.
    pub(crate) fn of(&self, party: u32) -> usize {
        usize::from(self.places[party as usize % MOST_FIRMS])
    }

    /// Keeps the place at which the firm of a party was found.
    pub(crate) fn keep(&mut self, party: u32, place: usize) {
        if let Ok(place) = u16::try_from(place) {
            self.places[party as usize % MOST_FIRMS] = place;
        }
    }
}
