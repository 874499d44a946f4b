// Make-whole, divided among buyers by a rule.
ghost use Rattle.std.specs.Prelude.{◌≡◌, ◌≢◌, ℕ, ◌<◌, suc, IfOk, slice_index};
ghost use Rattle.tariff.specs.Answers.{told, granted, in_order};
ghost use Rattle.tariff.specs.Division.{above_zero, division_answer};
ghost use Rattle.tally.specs.MakeWhole.{make_whole_claims, sharing_answer, sharings_answer};
ghost use Rattle.tally.specs.Settlement.{make_whole};
ghost use Rattle.tally.specs.States.{IsParty};
ghost use Rattle.tally.specs.Turns.{Turned};
ghost use Rattle.book.specs.AllottedHours.{Suffice};
ghost use Rattle.book.specs.Books.{state_of};
ghost use Rattle.book.specs.PricedDays.{prices_in};
ghost use Rattle.book.specs.Sharing.{Divisions, Shared, share_of};

use crate::block_hours::BlockHours;
use crate::book::Book;
use crate::places::Party;
use crate::priced_day::PricedDay;
use crate::records::{ByParty, PARTIES};
use tariff::blocks::Block;
use tariff::division::DivisionRule;
use tariff::refusal::Refusal;

// Buyers' shares of make-whole: for each block a table with a row for each seller.
#[derive(Clone, Copy)]
pub(crate) struct MakeWholeShares {
    pub(crate) heavy: ByParty<ByParty<u64>>,
    pub(crate) light: ByParty<ByParty<u64>>,
}

// How many claims are above 0.
fn above_zero(claims: &[u64]) -> u64
    ensures { result ≡ above_zero claims.now }
{
    claims.iter().filter(|claim| **claim > 0).count() as u64
}

impl Book {
    // What a seller lacks in a block, unless a rule that takes `most` claims above 0 would refuse to divide it. Of what
    // a rule tests only the count of claims is open: a book keeps the other figures within their limits.
    fn lacking_of(
        &self,
        prices: &PricedDay,
        most: u64,
        hours: &BlockHours,
        seller: Party,
    ) -> Result<u64, Refusal>
        requires kind { prices.now.kind ≡ self.now.day.kind }
        requires hours { Suffice (state_of self.now) hours.now }
        requires party { IsParty (state_of self.now) seller }
        ensures answer { told result
            ≡ sharing_answer (state_of self.now) (prices_in prices.now) most hours.now.block seller }
        ensures value { IfOk result (λ amount. amount
            ≡ make_whole (state_of self.now) (prices_in prices.now) hours.now.block seller) }
    {
        let amount = self.make_whole(prices, hours, seller);
        if amount > 0 {
            let claims = self.claims(hours, seller);
            let count = above_zero(&claims[..self.parties()]);
            if count > most {
                return Err(Refusal::TooManyClaims { count, limit: most });
            }
        }
        Ok(amount)
    }

    // What each seller lacks in a block, unless such a rule would refuse to divide one of these.
    pub(crate) fn lacking(
        &self,
        prices: &PricedDay,
        most: u64,
        hours: &BlockHours,
    ) -> Result<ByParty<u64>, Refusal>
        requires kind { prices.now.kind ≡ self.now.day.kind }
        requires hours { Suffice (state_of self.now) hours.now }
        ensures answer { told result
            ≡ in_order (sharing_answer (state_of self.now) (prices_in prices.now) most hours.now.block)
            self.now.pool.parties }
        ensures value { IfOk result (λ amounts. (seller : ℕ) → seller < self.now.pool.parties
            → slice_index amounts seller
            ≡ make_whole (state_of self.now) (prices_in prices.now) hours.now.block (suc seller)) }
    {
        let mut amounts = [0; PARTIES];
        for place in 0..self.parties() {
            amounts[place] = self.lacking_of(prices, most, hours, Party::at(place))?;
        }
        Ok(amounts)
    }

    // Divides what a seller lacks in a block among its buyers, where there is something to divide.
    fn share_of<R: DivisionRule>(
        &self,
        amount: u64,
        hours: &BlockHours,
        seller: Party,
        rule: &mut R,
    ) -> ByParty<u64>
        requires hours { Suffice (state_of self.now) hours.now }
        requires taken { 0 < amount → division_answer R.LIMIT amount
            (make_whole_claims (state_of self.now) hours.now.block seller) self.now.pool.parties ≡ granted }
        ensures turned { Turned R.moves amount
            (make_whole_claims (state_of self.now) hours.now.block seller)
            (R.meaning rule.old) (R.meaning rule.new) }
        ensures shares { (buyer : ℕ) → buyer < self.now.pool.parties → slice_index result buyer
            ≡ share_of amount (R.meaning rule.old)
            (make_whole_claims (state_of self.now) hours.now.block seller) buyer }
    {
        let mut shares = [0; PARTIES];
        if amount > 0 {
            let claims = self.claims(hours, seller);
            let parties = self.parties();
            let Ok(()) = rule.divide(amount, &claims[..parties], &mut shares[..parties]) else {
                unreachable!()
            };
        }
        shares
    }

    // Divides what each seller lacks in a block, for one after another: a row for each seller.
    fn share<R: DivisionRule>(
        &self,
        amounts: &ByParty<u64>,
        hours: &BlockHours,
        rule: &mut R,
    ) -> ByParty<ByParty<u64>>
        requires hours { Suffice (state_of self.now) hours.now }
        requires taken { (seller : ℕ) → seller < self.now.pool.parties → 0 < slice_index amounts.now seller
            → division_answer R.LIMIT (slice_index amounts.now seller)
            (make_whole_claims (state_of self.now) hours.now.block (suc seller)) self.now.pool.parties ≡ granted }
        ensures { Divisions R.LIMIT R.moves (λ seller. slice_index amounts.now seller)
            (λ seller. make_whole_claims (state_of self.now) hours.now.block (suc seller)) self.now.pool.parties
            self.now.pool.parties (R.meaning rule.old) result (R.meaning rule.new) }
    {
        let mut rows = [[0; PARTIES]; PARTIES];
        for place in 0..self.parties() {
            rows[place] = self.share_of(amounts[place], hours, Party::at(place), rule);
        }
        rows
    }

    // Divides make-whole of both blocks, unless the rule would refuse one of the divisions. Nothing is divided before
    // each was found to be taken, so that a refusal leaves the rule as it was.
    pub(crate) fn share_both<R: DivisionRule>(
        &self,
        prices: &PricedDay,
        rule: &mut R,
    ) -> Result<MakeWholeShares, Refusal>
        requires { prices.now.kind ≡ self.now.day.kind }
        ensures answer { told result ≡ sharings_answer (state_of self.now) (prices_in prices.now) R.LIMIT }
        ensures shared { IfOk result (λ shares. Shared R.LIMIT R.moves (state_of self.now) (prices_in prices.now)
            (R.meaning rule.old) shares.heavy shares.light (R.meaning rule.new)) }
        ensures same_rule { told result ≢ granted → rule.new ≡ rule.old }
    {
        let most = R::most_claims();
        let heavy_hours = self.allotted_hours(Block::Heavy);
        let light_hours = self.allotted_hours(Block::Light);
        let heavy = self.lacking(prices, most, &heavy_hours)?;
        let light = self.lacking(prices, most, &light_hours)?;
        let heavy = self.share(&heavy, &heavy_hours, rule);
        let light = self.share(&light, &light_hours, rule);
        Ok(MakeWholeShares { heavy, light })
    }
}
