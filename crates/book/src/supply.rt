// What was entered for an hour: which entries that allows, and from what its requests are met.
ghost use Rattle.std.specs.Prelude.{◌≡◌, ◌≢◌, ◌+◌, ◌≤◌, if◌then◌else◌, ◌==◌, IfOk, nat_le};
ghost use Rattle.tally.specs.Allotment.{allot_claims, allot_total, allotment, held_whole};
ghost use Rattle.tally.specs.Allotment.{counted_offer, offered, requested, shortfall, spare, supply_answer, surplus};
ghost use Rattle.tally.specs.Numbered.{listed};
ghost use Rattle.tally.specs.Pairs.{served};
ghost use Rattle.tariff.specs.Answers.{told, granted, require};
ghost use Rattle.tariff.specs.Division.{division_answer};
ghost use Rattle.tariff.specs.declared.refusal.Refusal.TheVariants.{AboveDeployment, AboveRequest, AboveShortfall};
ghost use Rattle.book.specs.HourEntries.{SmallHour};
ghost use Rattle.book.specs.RuleMoves.{AllotMoved};
ghost use Rattle.book.specs.Records.{at, by_seller, unallotted};

use crate::division::divide;
use crate::places::{HourNumber, Party};
use crate::records::{ByParty, Entered, Held, PARTIES};
use crate::sums::{sums, total_mw};
use crate::tables::get;
use tariff::division::DivisionRule;
use tariff::refusal::Refusal;

// What an hour's requests come to, and from what they are met.
#[derive(Drop)]
struct Supply {
    requested: u32,
    offers: ByParty<u16>,
    offered: u32,
    surpluses: ByParty<u16>,
    spare: u32,
}

// What a rule divides of an hour's requests, and what is held whole beside it.
#[derive(Drop)]
struct Portion {
    total: u16,
    claims: ByParty<u16>,
    whole: ByParty<u16>,
}

impl Held {
    // A miss is at most what its pair is to deliver.
    pub(crate) fn admit_miss(&self, seller: Party, buyer: Party, mwh: u16) -> Result<(), Refusal>
        ensures { told result ≡ require (nat_le mwh (by_seller 0 self.now.deployed seller buyer))
            (AboveDeployment seller buyer) }
    {
        if mwh > get(&self.deployed, seller, buyer) {
            return Err(Refusal::AboveDeployment {
                seller: seller.number(),
                buyer: buyer.number(),
            });
        }
        Ok(())
    }
}

impl Entered {
    // A party's shortfall, which is a negative result's size.
    fn shortfall(&self, party: Party) -> u16
        ensures { result ≡ shortfall (unallotted self.now) party }
    {
        self.results[party.place()].min(0).unsigned_abs()
    }

    // A party's offer, unless it requests something itself.
    fn counted_offer(&self, party: Party) -> u16
        ensures { result ≡ counted_offer (unallotted self.now) party }
    {
        if self.requests[party.place()] > 0 {
            0
        } else {
            self.offers[party.place()]
        }
    }

    // A party's surplus, which is a result above 0.
    fn surplus(&self, party: Party) -> u16
        ensures { result ≡ surplus (unallotted self.now) party }
    {
        self.results[party.place()].max(0).unsigned_abs()
    }

    // The offers of all parties.
    fn counted_offers(&self) -> ByParty<u16>
        ensures { at 0 result ≡ counted_offer (unallotted self.now) }
    {
        let mut offers = [0; PARTIES];
        for place in 0..PARTIES {
            offers[place] = self.counted_offer(Party::at(place));
        }
        offers
    }

    // The surpluses of all parties.
    fn surpluses(&self) -> ByParty<u16>
        ensures { at 0 result ≡ surplus (unallotted self.now) }
    {
        let mut surpluses = [0; PARTIES];
        for place in 0..PARTIES {
            surpluses[place] = self.surplus(Party::at(place));
        }
        surpluses
    }

    // A request is at most its party's shortfall.
    pub(crate) fn admit_request(
        &self,
        hour: HourNumber,
        party: Party,
        mw: u16,
    ) -> Result<(), Refusal>
        ensures { told result ≡ require (nat_le mw (shortfall (unallotted self.now) party))
            (AboveShortfall hour party) }
    {
        if mw > self.shortfall(party) {
            return Err(Refusal::AboveShortfall {
                hour: hour.number(),
                party: party.number(),
            });
        }
        Ok(())
    }

    // A deployment is at most its buyer's request.
    pub(crate) fn admit_deployment(
        &self,
        hour: HourNumber,
        buyer: Party,
        mw: u16,
    ) -> Result<(), Refusal>
        ensures { told result ≡ require (nat_le mw (served (unallotted self.now) buyer))
            (AboveRequest hour buyer) }
    {
        if mw > self.requests[buyer.place()] {
            return Err(Refusal::AboveRequest {
                hour: hour.number(),
                party: buyer.number(),
            });
        }
        Ok(())
    }

    // What all parties together request, offer and have in surplus.
    fn supply(&self, parties: usize) -> Supply
        requires { parties ≤ 12 }
        ensures requested { result.requested ≡ requested parties (unallotted self.now) }
        ensures offers { at 0 result.offers ≡ counted_offer (unallotted self.now) }
        ensures offered { result.offered ≡ offered parties (unallotted self.now) }
        ensures surpluses { at 0 result.surpluses ≡ surplus (unallotted self.now) }
        ensures spare { result.spare ≡ spare parties (unallotted self.now) }
        ensures fits { result.offered + result.spare ≤ 1572840 }
    {
        let offers = self.counted_offers();
        let surpluses = self.surpluses();
        Supply {
            requested: total_mw(&self.requests, parties),
            offered: total_mw(&offers, parties),
            spare: total_mw(&surpluses, parties),
            offers,
            surpluses,
        }
    }

    // Requests are met from the counted offers and surpluses together.
    pub(crate) fn admit_allot(&self, hour: HourNumber, parties: usize) -> Result<(), Refusal>
        requires { parties ≤ 12 }
        ensures { told result ≡ supply_answer parties (unallotted self.now) hour }
    {
        let supply = self.supply(parties);
        let available = supply.offered + supply.spare;
        if supply.requested > available {
            return Err(Refusal::AboveSupply {
                hour: hour.number(),
                short: u64::from(supply.requested - available),
            });
        }
        Ok(())
    }

    // Offers are divided where they suffice. Else they are held whole, and surpluses make up what they lack.
    fn portion(&self, parties: usize) -> Portion
        requires few { parties ≤ 12 }
        requires small { SmallHour (unallotted self.now) }
        ensures total { result.total ≡ allot_total parties (unallotted self.now) }
        ensures claims { listed (at 0 result.claims) parties ≡ allot_claims parties (unallotted self.now) }
        ensures whole { at 0 result.whole ≡ held_whole parties (unallotted self.now) }
        ensures small { result.total ≤ 60000 }
    {
        let Supply {
            requested,
            offers,
            offered,
            surpluses,
            ..
        } = self.supply(parties);
        if requested <= offered {
            Portion {
                total: requested as u16,
                claims: offers,
                whole: [0; PARTIES],
            }
        } else {
            Portion {
                total: (requested - offered) as u16,
                claims: surpluses,
                whole: offers,
            }
        }
    }

    // What each party is to hold by a rule.
    pub(crate) fn holdings<R: DivisionRule>(
        &self,
        parties: usize,
        rule: &mut R,
    ) -> Result<ByParty<u16>, Refusal>
        requires few { parties ≤ 12 }
        requires small { SmallHour (unallotted self.now) }
        ensures answer { told result ≡ (if requested parties (unallotted self.now) == 0 then granted
            else division_answer R.LIMIT (allot_total parties (unallotted self.now))
            (allot_claims parties (unallotted self.now)) parties) }
        ensures value { IfOk result (λ holdings. at 0 holdings
            ≡ allotment parties (unallotted self.now) (R.meaning rule.old)) }
        ensures moved { AllotMoved R.moves (told result) parties (unallotted self.now)
            (R.meaning rule.old) (R.meaning rule.new) }
        ensures same_rule { told result ≢ granted → rule.new ≡ rule.old }
    {
        let Portion {
            total,
            claims,
            whole,
        } = self.portion(parties);
        // So just where nothing is requested: then the rule is not asked.
        if total == 0 {
            return Ok([0; PARTIES]);
        }
        let shares = divide(rule, total, &claims, parties)?;
        Ok(sums(&whole, &shares))
    }
}
