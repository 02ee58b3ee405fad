// Why something is refused: a name for each refusal number of documents 01 and 02, as in include/poztecameh_names.h.
#![tactic(auto)]

ghost use Rattle.std.specs.Prelude.{◌≡◌};
ghost use Rattle.refusal.specs.Numbers.{number};

use std::error::Error;
use std::fmt;

#[derive(Clone, Copy, Debug, PartialEq, Eq)]
pub enum Refusal {
    FrameShort = 1,
    FrameLong = 2,
    FrameCheck = 3,
    FrameCount = 4,
    FrameContents = 5,
    FrameRange = 6,
    FramePriority = 7,
    FrameRepeated = 8,
    FrameVersion = 9,
    NoRoom = 10,
    ChartCut = 21,
    ChartTag = 22,
    ChartLength = 23,
    ChartRange = 24,
    ChartAfter = 25,
    ChartCrowd = 26,
    ChartTwice = 27,
    ChartStranger = 28,
    ChartLoop = 29,
    ChartTaken = 30,
    ChartUnasked = 31,
    ChartOneWay = 32,
    ChartLong = 33,
    BadRoute = 41,
    NoRouteRoom = 42,
    NoRoute = 43,
    NoNode = 44,
    BadTable = 50,
    BadDestination = 51,
    NoEntry = 52,
    BadLedger = 60,
    NoTicks = 61,
    BadSeq = 62,
    NoPlaces = 63,
    NoOpenLeg = 64,
    NoSettledLeg = 65,
    BadOwnAddress = 95,
}

impl Refusal {
    // The number, which is what C is given.
    pub fn number(self) -> u8
        ensures { result ≡ number self }
    {
        self as u8
    }

    // The refusal of what stands at a place.
    pub fn at(self, place: usize) -> Fault
        ensures { result ≡ record { refusal = self; place = place } }
    {
        Fault {
            refusal: self,
            place,
        }
    }
}

impl fmt::Display for Refusal {
    fn fmt<W: fmt::Write>(&self, f: &mut fmt::Formatter<W>) -> fmt::Result {
        write!(f, "refused {}", self.number())
    }
}

impl Error for Refusal {}

// A refusal, and the place of what is refused.
#[derive(Clone, Copy, Debug, PartialEq, Eq)]
pub struct Fault {
    pub refusal: Refusal,
    pub place: usize,
}

impl From<Fault> for Refusal {
    ghost from_gives = { λ f r. r ≡ f.refusal };

    fn from(f: Fault) -> Refusal {
        f.refusal
    }
}
