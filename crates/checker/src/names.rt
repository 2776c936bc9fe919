// The names that are declared, as they are looked up.
ghost use Rattle.std.specs.Prelude.{◌≡◌, ◌<◌, ◌≤◌, length, IfSome};
ghost use Rattle.script.specs.Places.{bytes_at};
ghost use Rattle.entries.specs.Fields.{find};
ghost use Rattle.entries.specs.Decoding.{place_at, place_of};

use entries::{find_name, is_name};
use script::{Entry, Place};

// Names that stand at these places of a text: at most 16.
#[derive(Clone, Copy)]
pub struct Names<'a> {
    pub text: &'a [u8],
    pub places: &'a [Place],
    pub ghost few: { length places.now ≤ 16 },
}

impl Names<'_> {
    // The index among them of the name that stands there.
    pub fn find(&self, at: Place) -> Option<usize>
        ensures found { result ≡ find self.now.text.now self.now.places.now 0 (bytes_at self.now.text.now at) }
        ensures within { IfSome result (λ i. i < 16) }
    {
        find_name(self.text, self.places, at.bytes(self.text))
    }

    // The same as a place among the variables.
    pub fn place_at(&self, at: Place) -> Option<u8>
        ensures { result ≡ place_at self.now.text.now self.now.places.now at }
    {
        self.find(at).map(|i| i as u8)
    }

    // The same of an entry; none where it is no name.
    pub fn place_of(&self, entry: Entry) -> Option<u8>
        ensures { result ≡ place_of self.now.text.now self.now.places.now entry }
    {
        if is_name(entry.token) {
            self.place_at(entry.place)
        } else {
            None
        }
    }
}
