// The triples of a text's lines, at most 17 of them.
ghost use Rattle.std.specs.Prelude.{◌≡◌, ◌≤◌, [], ◌∷◌, length};
ghost use Rattle.text.specs.Held.{triples_of, Pushed};

use crate::sizes::MOST_LINES;
use crate::triple::Triple;
use bounded::Bounded;
use fault::{Fault, Rule};

#[derive(Clone, Copy)]
pub struct Lines {
    triples: Bounded<Triple, MOST_LINES>,
}

// What stands in the places that hold no triple.
const BLANK: Triple = Triple {
    first: 0,
    second: 0,
    third: 0,
};

impl Lines {
    // No line.
    pub fn new() -> Lines
        ensures { triples_of result ≡ [] }
    {
        Lines {
            triples: Bounded::new(BLANK),
        }
    }

    // One line.
    pub fn one(triple: Triple) -> Lines
        ensures { triples_of result ≡ triple ∷ [] }
    {
        let mut lines = Lines::new();
        // There is room, so it is not refused.
        let _ = lines.push(triple);
        lines
    }

    // Puts a triple last, or refuses it where there are 17 already.
    pub fn push(&mut self, triple: Triple) -> Result<(), Fault>
        ensures { Pushed self.old triple self.new result }
    {
        self.triples
            .push(triple)
            .map_err(|_| Rule::WholeLines.broken_at(0, 0))
    }

    // The triples, in the order of their lines.
    pub fn triples(&self) -> &[Triple]
        ensures held { result.now ≡ triples_of self.now }
        ensures few { length result.now ≤ 17 }
    {
        self.triples.items()
    }
}
