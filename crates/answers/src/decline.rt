// Why a line is declined, with the number of each reason.
ghost use Rattle.std.specs.Prelude.{◌≡◌, Option};
ghost use Rattle.answers.specs.Declines.{number_of, place_of, line_decline};

use lines::line::LineFault;
use sheet::Place;

// Why a line is declined.
#[derive(Clone, Copy)]
pub enum Decline {
    // A new store's rows or nodes are out of bounds, or its memory is short.
    StoreBounds,
    // k is outside 3 to 32.
    DataNodes,
    // a is outside 2 to k - 1.
    ClassANodes,
    // τ is outside 1 to a - 1.
    Piggybacks,
    // b is outside 0 to k - τ - 1.
    ClassBNodes,
    // The field has fewer than k + a symbols.
    SmallField,
    // The store has under k rows or under n nodes.
    SmallStore,
    // A row or a node is out of range.
    OutOfRange,
    // Not k × k symbols are set.
    WrongLength,
    // Working memory is short.
    ShortMemory,
    // The line has over 5,000 bytes.
    TooLong,
    // The first word is unknown.
    UnknownCall,
    // The number of words is wrong.
    WordCount,
    // A letter is unknown, or a number malformed.
    Malformed,
    // A word is no symbol of the field in use.
    NotSymbol,
    // The node to mend has no blank place.
    NotLost,
    // A place on the sheet is blank.
    Blank(Place),
    // A place on the sheet is worn.
    Worn(Place),
    // A make after an accepted make.
    AlreadyMade,
    // Another call before an accepted make.
    NotMade,
}

impl Decline {
    // The number of a decline.
    pub fn number(self) -> usize
        ensures { result ≡ number_of self }
    {
        // Kept: two declines carry a place, and the numbers of such an enum cannot be cast.
        match self {
            Decline::StoreBounds => 10,
            Decline::DataNodes => 11,
            Decline::ClassANodes => 12,
            Decline::Piggybacks => 13,
            Decline::ClassBNodes => 14,
            Decline::SmallField => 15,
            Decline::SmallStore => 16,
            Decline::OutOfRange => 17,
            Decline::WrongLength => 18,
            Decline::ShortMemory => 19,
            Decline::TooLong => 20,
            Decline::UnknownCall => 21,
            Decline::WordCount => 22,
            Decline::Malformed => 23,
            Decline::NotSymbol => 24,
            Decline::NotLost => 40,
            Decline::Blank(_) => 41,
            Decline::Worn(_) => 42,
            Decline::AlreadyMade => 43,
            Decline::NotMade => 44,
        }
    }

    // The place that a decline names: only a blank or worn one.
    pub fn place(self) -> Option<Place>
        ensures { result ≡ place_of self }
    {
        match self {
            Decline::Blank(place) | Decline::Worn(place) => Some(place),
            _ => None,
        }
    }
}

impl From<LineFault> for Decline {
    ghost from_gives = { λ f r. r ≡ line_decline f };

    fn from(fault: LineFault) -> Decline {
        match fault {
            LineFault::TooLong => Decline::TooLong,
            LineFault::UnknownCall => Decline::UnknownCall,
            LineFault::WordCount => Decline::WordCount,
            LineFault::Malformed => Decline::Malformed,
        }
    }
}
