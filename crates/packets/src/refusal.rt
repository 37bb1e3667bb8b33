// The refusals of document 01. A refusal has a number and a place; specs/Outcome.antt gives both for each case.

ghost use Rattle.std.specs.Prelude.{◌≡◌};
ghost use Rattle.packets.specs.Outcome.{number_of, place_of};

use std::fmt;
use std::fmt::{Display, Formatter};

// Why a call refuses. A case with a place holds the index of the record or entry at fault.
#[derive(Clone, Copy, PartialEq, Eq, Debug)]
pub enum Refusal {
    // 1: the bytes, records or entries end before the count does, or there are no bytes to have a count in
    Short,
    // 2: packet count 0
    NoPackets,
    // 3: packet count above 64 packets
    TooManyPackets,
    // 4: size 0 bytes, or above 65,535 bytes
    Size(usize),
    // 5: deadline above 86,400 seconds
    Deadline(usize),
    // 6: arrival not below deadline
    Arrival(usize),
    // 7: a nonzero unused bit
    UnusedBit,
    // 8: what is lent has no room for the answer; a frame's room includes its head
    NoRoom,
    // 9: a plan of 0 entries, or of more than 191 entries
    EntryCount,
    // 10: an entry that fails its tests
    Entry(usize),
    // 11: a cost that does not fit 44 bits, when it is to be written (bytes per second, squared, times seconds)
    Cost,
}

impl Refusal {
    // The number of a refusal: the rules' own, which no derive knows.
    pub fn number(self) -> u64
        ensures { result ≡ number_of self }
    {
        match self {
            Refusal::Short => 1,
            Refusal::NoPackets => 2,
            Refusal::TooManyPackets => 3,
            Refusal::Size(_) => 4,
            Refusal::Deadline(_) => 5,
            Refusal::Arrival(_) => 6,
            Refusal::UnusedBit => 7,
            Refusal::NoRoom => 8,
            Refusal::EntryCount => 9,
            Refusal::Entry(_) => 10,
            Refusal::Cost => 11,
        }
    }

    // Its place: the index of the record or entry at fault, else 0.
    pub fn place(self) -> usize
        ensures { result ≡ place_of self }
    {
        match self {
            Refusal::Size(i) | Refusal::Deadline(i) | Refusal::Arrival(i) | Refusal::Entry(i) => i,
            _ => 0,
        }
    }
}

// The line of a refusal: its number and its place.
impl Display for Refusal {
    fn fmt<W: fmt::Write>(&self, f: &mut Formatter<W>) -> fmt::Result {
        let number = self.number();
        let place = self.place();
        write!(f, "refused {number} {place}")
    }
}
