// An hour's figures: what is held, and of each pair what is deployed, missed, delivered and declined.
ghost use Rattle.std.specs.Prelude.{◌≡◌};
ghost use Rattle.tally.specs.Pairs.{declined, delivered, pair};
ghost use Rattle.book.specs.Led.{Laid};
ghost use Rattle.book.specs.Records.{hour_of};

use crate::places::Party;
use crate::records::HourRecord;
use crate::tables::{get, get_in_row};
use tariff::charges::Cover;

impl HourRecord {
    // MW that a seller holds.
    pub(crate) fn held(&self, seller: Party) -> u16
        ensures { result ≡ (hour_of self.now).holdings seller }
    {
        match self {
            HourRecord::Unallotted { .. } => 0,
            HourRecord::Allotted { held, .. } => get_in_row(&held.holdings, seller),
        }
    }

    // MW that a seller holds for a buyer. The allot lays the pairs; before it nothing is held.
    pub(crate) fn pair(&self, seller: Party, buyer: Party) -> u16
        requires { Laid self.now }
        ensures { result ≡ pair (hour_of self.now) seller buyer }
    {
        match self {
            HourRecord::Unallotted { .. } => 0,
            HourRecord::Allotted { held, .. } => get(&held.pairs, seller, buyer),
        }
    }

    // MWh that a seller was to deliver to a buyer.
    pub(crate) fn deployed(&self, seller: Party, buyer: Party) -> u16
        ensures { result ≡ (hour_of self.now).deployed seller buyer }
    {
        match self {
            HourRecord::Unallotted { .. } => 0,
            HourRecord::Allotted { held, .. } => get(&held.deployed, seller, buyer),
        }
    }

    // Those of them that it missed.
    pub(crate) fn missed(&self, seller: Party, buyer: Party) -> u16
        ensures { result ≡ (hour_of self.now).missed seller buyer }
    {
        match self {
            HourRecord::Unallotted { .. } => 0,
            HourRecord::Allotted { held, .. } => get(&held.missed, seller, buyer),
        }
    }

    // Whether others covered what a seller missed.
    pub(crate) fn cover(&self, seller: Party, buyer: Party) -> Cover
        ensures { result ≡ (hour_of self.now).cover seller buyer }
    {
        match self {
            HourRecord::Unallotted { .. } => Cover::Covered,
            HourRecord::Allotted { held, .. } => get(&held.cover, seller, buyer),
        }
    }

    // Those that it delivered.
    pub(crate) fn delivered(&self, seller: Party, buyer: Party) -> u16
        ensures { result ≡ delivered (hour_of self.now) seller buyer }
    {
        self.deployed(seller, buyer)
            .saturating_sub(self.missed(seller, buyer))
    }

    // MW that a buyer declines of what the seller holds for it.
    pub(crate) fn declined(&self, seller: Party, buyer: Party) -> u16
        requires { Laid self.now }
        ensures { result ≡ declined (hour_of self.now) seller buyer }
    {
        self.pair(seller, buyer)
            .saturating_sub(self.deployed(seller, buyer))
    }
}
