//! The announced number.

ghost use Rattle.std.specs.Prelude.{◌≡◌, ◌≤◌, min, max};
ghost use Rattle.fdr_deck.specs.Announced.{least_announced, greatest_announced};

/// The number that a deck announced last, and the least and the greatest number that it announced
/// since its last call that wasn't an announcement, with the one that was announced then.
#[derive(Clone, Copy, Debug)]
pub struct Announced {
    number: u64,
    least: u64,
    greatest: u64,
}

impl Announced {
    /// The number of a new deck, 0.
    pub fn new() -> Announced
        ensures number { result.number ≡ 0 }
        ensures least { least_announced result ≡ 0 }
        ensures greatest { greatest_announced result ≡ 0 }
    {
        Announced {
            number: 0,
            least: 0,
            greatest: 0,
        }
    }

    /// The number that was announced last.
    pub fn told(&self) -> u64
        ensures { result ≡ self.now.number }
    {
        self.number
    }

    /// The greatest number that was announced since the last call that wasn't an announcement.
    pub fn greatest(&self) -> u64
        ensures { result ≡ greatest_announced self.now }
    {
        self.greatest.max(self.number)
    }

    /// Announces this number.
    pub fn announce(&mut self, count: u64)
        ensures number { self.new.number ≡ count }
        ensures least { least_announced self.new ≡ min (least_announced self.old) count }
        ensures greatest { greatest_announced self.new ≡ max (greatest_announced self.old) count }
    {
        self.least = self.least.min(self.number).min(count);
        self.greatest = self.greatest.max(self.number).max(count);
        self.number = count;
    }

    /// A call that isn't an announcement: no other number was announced since.
    pub fn begin_anew(&mut self)
        ensures number { self.new.number ≡ self.old.number }
        ensures least { least_announced self.new ≡ self.old.number }
        ensures greatest { greatest_announced self.new ≡ self.old.number }
    {
        self.least = self.number;
        self.greatest = self.number;
    }
}
