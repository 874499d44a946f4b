// Why a call of the book, its sheets, rules or lines is refused.
ghost use Rattle.std.specs.Prelude.{◌≡◌, Some};
ghost use Rattle.tariff.specs.Refusals.{number_of, places_of, layer_of, quote_number, refusal_text};

use std::error::Error;
use std::fmt;

// What a price source can lack.
#[derive(Clone, Copy, Debug, PartialEq, Eq)]
pub enum Quote {
    DayAhead,
    RealTime,
    Factor,
}

// The number by which the second place of a missing price tells it.
impl From<Quote> for u64 {
    ghost from_gives = { λ quote number. number ≡ quote_number quote };

    fn from(quote: Quote) -> u64 {
        match quote {
            Quote::DayAhead => 1,
            Quote::RealTime => 2,
            Quote::Factor => 3,
        }
    }
}

// Who answers for a refusal.
#[derive(Clone, Copy, Debug, PartialEq, Eq)]
pub enum Layer {
    LineWriter,
    SetUp,
    DayKeeper,
    Buyer,
    Seller,
    Pool,
    PriceSource,
    DivisionRule,
}

// One case for each refusal of the project. A position counts the fields of the refused entry from 1, marks too.
#[derive(Clone, Copy, Debug, PartialEq, Eq)]
pub enum Refusal {
    LineTooLong,
    UnknownLetter,
    FieldCount,
    Misspelt { position: u64 },
    ShortTarget { needed: u64 },
    Parties,
    Rates,
    SecondSetUp,
    NotSetUp,
    PageSize { count: u64 },
    DayOpen,
    NoDayOpen,
    Day { position: u64 },
    Month { position: u64 },
    Hour { position: u64 },
    Party { position: u64 },
    Figure { position: u64 },
    HourAllotted { hour: u64 },
    HourNotAllotted { hour: u64 },
    AboveShortfall { hour: u64, party: u64 },
    AboveRequest { hour: u64, party: u64 },
    AboveDeployment { seller: u64, buyer: u64 },
    AboveSupply { hour: u64, short: u64 },
    MissingPrice { hour: u64, quote: Quote },
    ShareLists,
    DivisionFigure,
    NoClaims,
    TooManyClaims { count: u64, limit: u64 },
}

impl Refusal {
    // The number by which the refusal is told.
    pub fn number(self) -> u64
        ensures { result ≡ number_of self }
    {
        match self {
            Refusal::LineTooLong => 11,
            Refusal::UnknownLetter => 12,
            Refusal::FieldCount => 13,
            Refusal::Misspelt { .. } => 14,
            Refusal::ShortTarget { .. } => 15,
            Refusal::Parties => 21,
            Refusal::Rates => 22,
            Refusal::SecondSetUp => 23,
            Refusal::NotSetUp => 24,
            Refusal::PageSize { .. } => 25,
            Refusal::DayOpen => 31,
            Refusal::NoDayOpen => 32,
            Refusal::Day { .. } => 33,
            Refusal::Month { .. } => 34,
            Refusal::Hour { .. } => 35,
            Refusal::Party { .. } => 36,
            Refusal::Figure { .. } => 37,
            Refusal::HourAllotted { .. } => 38,
            Refusal::HourNotAllotted { .. } => 39,
            Refusal::AboveShortfall { .. } => 41,
            Refusal::AboveRequest { .. } => 42,
            Refusal::AboveDeployment { .. } => 51,
            Refusal::AboveSupply { .. } => 61,
            Refusal::MissingPrice { .. } => 66,
            Refusal::ShareLists => 70,
            Refusal::DivisionFigure => 71,
            Refusal::NoClaims => 72,
            Refusal::TooManyClaims { .. } => 73,
        }
    }

    // The two places that say where the entry is at fault, 0 where the refusal names none.
    pub fn places(self) -> (u64, u64)
        ensures { result ≡ places_of self }
    {
        match self {
            Refusal::Misspelt { position }
            | Refusal::Day { position }
            | Refusal::Month { position }
            | Refusal::Hour { position }
            | Refusal::Party { position }
            | Refusal::Figure { position } => (position, 0),
            Refusal::ShortTarget { needed } => (needed, 0),
            Refusal::PageSize { count } => (count, 0),
            Refusal::HourAllotted { hour } | Refusal::HourNotAllotted { hour } => (hour, 0),
            Refusal::AboveShortfall { hour, party } | Refusal::AboveRequest { hour, party } => (
                hour, party,
            ),
            Refusal::AboveDeployment { seller, buyer } => (seller, buyer),
            Refusal::AboveSupply { hour, short } => (hour, short),
            Refusal::MissingPrice { hour, quote } => (hour, u64::from(quote)),
            Refusal::TooManyClaims { count, limit } => (count, limit),
            Refusal::LineTooLong
            | Refusal::UnknownLetter
            | Refusal::FieldCount
            | Refusal::Parties
            | Refusal::Rates
            | Refusal::SecondSetUp
            | Refusal::NotSetUp
            | Refusal::DayOpen
            | Refusal::NoDayOpen
            | Refusal::ShareLists
            | Refusal::DivisionFigure
            | Refusal::NoClaims => (0, 0),
        }
    }

    // Who answers for the refusal.
    pub fn layer(self) -> Layer
        ensures { result ≡ layer_of self }
    {
        match self {
            Refusal::LineTooLong
            | Refusal::UnknownLetter
            | Refusal::FieldCount
            | Refusal::Misspelt { .. }
            | Refusal::ShortTarget { .. } => Layer::LineWriter,
            Refusal::Parties
            | Refusal::Rates
            | Refusal::SecondSetUp
            | Refusal::NotSetUp
            | Refusal::PageSize { .. } => Layer::SetUp,
            Refusal::DayOpen
            | Refusal::NoDayOpen
            | Refusal::Day { .. }
            | Refusal::Month { .. }
            | Refusal::Hour { .. }
            | Refusal::Party { .. }
            | Refusal::Figure { .. }
            | Refusal::HourAllotted { .. }
            | Refusal::HourNotAllotted { .. } => Layer::DayKeeper,
            Refusal::AboveShortfall { .. } | Refusal::AboveRequest { .. } => Layer::Buyer,
            Refusal::AboveDeployment { .. } => Layer::Seller,
            Refusal::AboveSupply { .. } => Layer::Pool,
            Refusal::MissingPrice { .. } => Layer::PriceSource,
            Refusal::ShareLists
            | Refusal::DivisionFigure
            | Refusal::NoClaims
            | Refusal::TooManyClaims { .. } => Layer::DivisionRule,
        }
    }
}

impl fmt::Display for Refusal {
    ghost output = { λ refusal. Some (refusal_text refusal) };

    fn fmt<W: fmt::Write>(&self, f: &mut fmt::Formatter<W>) -> fmt::Result {
        let (first, second) = self.places();
        write!(f, "{}, places {first} and {second}", self.number())
    }
}

impl Error for Refusal {}
