//! Where names may be in a map.

ghost use Rattle.std.specs.Prelude.{◌<◌};

/// The numbers of names are below this.
const NUMBERS: usize = 64;

/// What a name's length counts for in its number.
const LENGTH: usize = 17;

/// The number of a name. Names of one set mostly differ in their last byte or their length.
fn number_of(name: &[u8]) -> usize
    ensures { result < 64 }
{
    let [.., last] = name else {
        return 0;
    };
    (usize::from(*last) + LENGTH * (name.len() % NUMBERS)) % NUMBERS
}

/// Where names may be in a map, so that most look-ups need no hash: for each number of a name the
/// place where the last name of this number was put. A place is a guess, and no clause speaks of
/// it. Who takes it compares the name there.
#[derive(Clone, Copy)]
pub(crate) struct Places {
    places: [u16; NUMBERS],
}

impl Places {
    /// No name was put.
    pub(crate) fn new() -> Places {
        Places {
            places: [0; NUMBERS],
        }
    }

    /// Where this name may be.
    pub(crate) fn of(&self, name: &[u8]) -> usize {
        usize::from(self.places[number_of(name)])
    }

    /// A name was put at a place. Only the first 65,536 places are kept.
    pub(crate) fn note(&mut self, name: &[u8], place: usize) {
        if let Ok(place) = u16::try_from(place) {
            self.places[number_of(name)] = place;
        }
    }
}
