// Parties and hours by the places that they have in a book's tables: the one before their number.
ghost use Rattle.std.specs.Prelude.{◌≡◌, ℕ, ◌-◌, ◌<◌, suc};
ghost use Rattle.tariff.specs.Blocks.{block_of};

use std::marker::Model;
use tariff::blocks::{Block, DayKind};

// A party, which clauses see as its number.
#[derive(Clone, Copy)]
pub(crate) struct Party {
    place: usize,
}

impl Model for Party {
    ghost Value = { ℕ };

    ghost view = { λ party. suc party.place };

    ghost invariant = { λ party. party.place < 12 };

    ghost inverse = { λ number. record { place = number - 1 } };
}

// An hour of a day, which clauses see as its number.
#[derive(Clone, Copy)]
pub(crate) struct HourNumber {
    place: usize,
}

impl Model for HourNumber {
    ghost Value = { ℕ };

    ghost view = { λ hour. suc hour.place };

    ghost invariant = { λ hour. hour.place < 24 };

    ghost inverse = { λ number. record { place = number - 1 } };
}

impl Party {
    // The party at a place.
    pub(crate) fn at(place: usize) -> Party
        requires { place < 12 }
        ensures { result ≡ suc place }
    {
        Party { place }
    }

    // Where it stands.
    pub(crate) fn place(self) -> usize
        ensures value { suc result ≡ self }
        ensures within { result < 12 }
    {
        self.place
    }

    // Parties count from 1.
    pub(crate) fn number(self) -> u64
        ensures { result ≡ self }
    {
        self.place as u64 + 1
    }
}

impl HourNumber {
    // The hour at a place.
    pub(crate) fn at(place: usize) -> HourNumber
        requires { place < 24 }
        ensures { result ≡ suc place }
    {
        HourNumber { place }
    }

    // Where it stands.
    pub(crate) fn place(self) -> usize
        ensures value { suc result ≡ self }
        ensures within { result < 24 }
    {
        self.place
    }

    // Hours count from 1.
    pub(crate) fn number(self) -> u64
        ensures { result ≡ self }
    {
        self.place as u64 + 1
    }

    // The block to which the hour belongs on a day of such a kind.
    pub(crate) fn block(self, kind: DayKind) -> Block
        ensures { result ≡ block_of kind self }
    {
        let Ok(block) = kind.block(self.number()) else {
            unreachable!()
        };
        block
    }
}
