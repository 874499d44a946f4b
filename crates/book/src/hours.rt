// What an hour does with an entry.
ghost use Rattle.std.specs.Prelude.{◌≡◌, ◌≢◌, ◌≤◌, false, IfOk};
ghost use Rattle.tariff.specs.Answers.{told, granted};
ghost use Rattle.tally.specs.Hours.{with_holdings};
ghost use Rattle.book.specs.HourEntries.{Changed, PartsMoved, SmallHour, admitted, asked_answer, comes_after_allot, parts_by, written};
ghost use Rattle.book.specs.Led.{Laid};
ghost use Rattle.book.specs.Records.{at, hour_of, hours_of};

use crate::division::divide;
use crate::laying::lay;
use crate::places::{HourNumber, Party};
use crate::records::{ByParty, DayRecord, Held, HourRecord, PARTIES};
use crate::tables::put;
use tariff::charges::Cover;
use tariff::division::DivisionRule;
use tariff::refusal::Refusal;

// An entry for one hour.
#[derive(Clone, Copy)]
pub(crate) enum HourEntry {
    Result {
        party: Party,
        mw: i16,
    },
    Offer {
        party: Party,
        mw: u16,
    },
    Request {
        party: Party,
        mw: u16,
    },
    Allot,
    Deploy {
        buyer: Party,
        mw: u16,
    },
    Miss {
        seller: Party,
        buyer: Party,
        mwh: u16,
        cover: Cover,
    },
}

impl HourRecord {
    // Whether the hour takes an entry, or by which refusal it does not: its own state and the entry together decide. Inlined,
    // as `write` is, since each call knows which entry it has.
    #[inline(always)]
    pub(crate) fn admit(
        &self,
        hour: HourNumber,
        parties: usize,
        entry: &HourEntry,
    ) -> Result<(), Refusal>
        requires { parties ≤ 12 }
        ensures { told result ≡ admitted parties hour entry.now (hour_of self.now) }
    {
        match (self, *entry) {
            (HourRecord::Unallotted { .. }, HourEntry::Result { .. } | HourEntry::Offer { .. }) =>
                Ok(()),
            (HourRecord::Unallotted { entered }, HourEntry::Request { party, mw }) => {
                entered.admit_request(hour, party, mw)
            }
            (HourRecord::Unallotted { entered }, HourEntry::Allot) => {
                entered.admit_allot(hour, parties)
            }
            (HourRecord::Allotted { entered, .. }, HourEntry::Deploy { buyer, mw }) => {
                entered.admit_deployment(hour, buyer, mw)
            }
            (
                HourRecord::Allotted { held, .. },
                HourEntry::Miss {
                    seller,
                    buyer,
                    mwh,
                    ..
                },
            ) => held.admit_miss(seller, buyer, mwh),
            (HourRecord::Unallotted { .. }, _) => Err(Refusal::HourNotAllotted {
                hour: hour.number(),
            }),
            (HourRecord::Allotted { .. }, _) => Err(Refusal::HourAllotted {
                hour: hour.number(),
            }),
        }
    }

    // What an allot gives each seller to hold, or a deployment to deliver, as the rule divides it.
    pub(crate) fn parts<R: DivisionRule>(
        &self,
        parties: usize,
        entry: &HourEntry,
        rule: &mut R,
    ) -> Result<ByParty<u16>, Refusal>
        requires few { parties ≤ 12 }
        requires small { SmallHour (hour_of self.now) }
        requires laid { Laid self.now }
        requires stage { (hour_of self.now).allotted ≡ comes_after_allot entry.now }
        ensures answer { told result ≡ asked_answer parties R.LIMIT entry.now (hour_of self.now) }
        ensures parts { IfOk result (λ parts. at 0 parts
            ≡ parts_by parties (R.meaning rule.old) entry.now (hour_of self.now)) }
        ensures moved { PartsMoved R.moves (told result) parties entry.now (hour_of self.now)
            (R.meaning rule.old) (R.meaning rule.new) }
        ensures same_rule { told result ≢ granted → rule.new ≡ rule.old }
    {
        match (self, *entry) {
            (HourRecord::Unallotted { entered }, HourEntry::Allot) => {
                entered.holdings(parties, rule)
            }
            (HourRecord::Allotted { held, .. }, HourEntry::Deploy { buyer, mw }) => {
                divide(rule, mw, &held.pairs[buyer.place()], parties)
            }
            // Nothing is asked for any other.
            _ => Ok([0; PARTIES]),
        }
    }

    // Gives each party what it holds, and lays the pairs.
    fn hold(&mut self, holdings: ByParty<u16>)
        requires { (hour_of self.old).allotted ≡ false }
        ensures hour { hour_of self.new ≡ with_holdings (at 0 holdings) (hour_of self.old) }
        ensures laid { Laid self.new }
    {
        let HourRecord::Unallotted { entered } = *self else {
            unreachable!()
        };
        *self = HourRecord::Allotted {
            entered,
            held: Held {
                holdings,
                pairs: lay(&holdings, &entered.requests),
                deployed: [[0; PARTIES]; PARTIES],
                missed: [[0; PARTIES]; PARTIES],
                cover: [[Cover::Covered; PARTIES]; PARTIES],
            },
        };
    }

    // Writes an entry that was admitted, with the parts that a rule gave.
    #[inline(always)]
    fn write(&mut self, entry: HourEntry, parts: &ByParty<u16>)
        requires { (hour_of self.old).allotted ≡ comes_after_allot entry }
        ensures hour { hour_of self.new ≡ written entry (at 0 parts.now) (hour_of self.old) }
        ensures laid { Laid self.old → Laid self.new }
    {
        if let HourEntry::Allot = entry {
            self.hold(*parts);
            return;
        }
        match (self, entry) {
            (HourRecord::Unallotted { entered }, HourEntry::Result { party, mw }) => {
                entered.results[party.place()] = mw;
                entered.requests[party.place()] = 0;
            }
            (HourRecord::Unallotted { entered }, HourEntry::Offer { party, mw }) => {
                entered.offers[party.place()] = mw;
            }
            (HourRecord::Unallotted { entered }, HourEntry::Request { party, mw }) => {
                entered.requests[party.place()] = mw;
            }
            (HourRecord::Allotted { held, .. }, HourEntry::Deploy { buyer, .. }) => {
                let place = buyer.place();
                held.deployed[place] = *parts;
                held.missed[place] = [0; PARTIES];
            }
            (
                HourRecord::Allotted { held, .. },
                HourEntry::Miss {
                    seller,
                    buyer,
                    mwh,
                    cover,
                },
            ) => {
                put(&mut held.missed, seller, buyer, mwh);
                put(&mut held.cover, seller, buyer, cover);
            }
            _ => unreachable!(),
        }
    }
}

impl DayRecord {
    // Lends the record of an hour to an entry that the hour admits.
    #[inline(always)]
    pub(crate) fn write(&mut self, hour: HourNumber, entry: HourEntry, parts: &ByParty<u16>)
        requires { (hours_of self.old.hours hour).allotted ≡ comes_after_allot entry }
        ensures { Changed hour (written entry (at 0 parts.now)) self.old self.new }
    {
        self.hours[hour.place()].write(entry, parts);
    }
}
