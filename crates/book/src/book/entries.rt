// The entries of an hour.
ghost use Rattle.std.specs.Prelude.{◌≡◌, ◌≢◌, IfOk, pos, unsigned_abs};
ghost use Rattle.tally.specs.Denials.{answer, day_is_open, is_hour_at, is_party_at, is_figure_at};
ghost use Rattle.tally.specs.Denials.{is_unallotted, is_allotted, is_within_served};
ghost use Rattle.tally.specs.Allotment.{supply_answer};
ghost use Rattle.tally.specs.Events.{allot_hour, deploy, enter_miss, enter_offer, enter_request, enter_result};
ghost use Rattle.tally.specs.Pairs.{pairs_of};
ghost use Rattle.tally.specs.States.{hour_at, hour_named};
ghost use Rattle.tariff.specs.Answers.{told, granted, ◌then◌};
ghost use Rattle.tariff.specs.Division.{Moved};
ghost use Rattle.book.specs.Books.{state_of};
ghost use Rattle.book.specs.HourEntries.{Admitted, admitted};
ghost use Rattle.book.specs.RuleMoves.{AllotMoved};
ghost use Rattle.book.specs.Stepped.{Stepped};
ghost use Rattle.book.specs.declared.hours.HourEntry.TheVariants.{Result as result_of, Offer, Request, Allot, Deploy, Miss};

use crate::book::Book;
use crate::hours::HourEntry;
use crate::places::HourNumber;
use crate::records::PARTIES;
use tariff::charges::Cover;
use tariff::division::DivisionRule;
use tariff::refusal::Refusal;

impl Book {
    // An entry that its hour admits.
    fn admitted(
        &self,
        hour: HourNumber,
        entry: HourEntry,
    ) -> Result<(HourNumber, HourEntry), Refusal>
        ensures answer { told result ≡ admitted self.now.pool.parties hour entry (hour_at (state_of self.now) hour) }
        ensures value { IfOk result (Admitted (state_of self.now) (pos hour) entry) }
    {
        self.hour_record(hour).admit(hour, self.parties(), &entry)?;
        Ok((hour, entry))
    }

    // A result as an entry of its hour.
    fn result(&self, hour: i64, party: i64, mw: i64) -> Result<(HourNumber, HourEntry), Refusal>
        ensures answer { told result ≡ answer (state_of self.now) (enter_result hour party mw) }
        ensures value { IfOk result (Admitted (state_of self.now) hour (result_of (unsigned_abs party) mw)) }
    {
        self.require_open()?;
        let hour = self.hour(1, hour)?;
        let party = self.party(2, party)?;
        let mw = self.signed_figure(3, mw)?;
        self.admitted(hour, HourEntry::Result { party, mw })
    }

    // An offer as an entry of its hour.
    fn offer(&self, hour: i64, party: i64, mw: i64) -> Result<(HourNumber, HourEntry), Refusal>
        ensures answer { told result ≡ answer (state_of self.now) (enter_offer hour party mw) }
        ensures value { IfOk result (Admitted (state_of self.now) hour (Offer (unsigned_abs party) (unsigned_abs mw))) }
    {
        self.require_open()?;
        let hour = self.hour(1, hour)?;
        let party = self.party(2, party)?;
        let mw = self.figure(3, mw)?;
        self.admitted(hour, HourEntry::Offer { party, mw })
    }

    // A request as an entry of its hour.
    fn request(&self, hour: i64, party: i64, mw: i64) -> Result<(HourNumber, HourEntry), Refusal>
        ensures answer { told result ≡ answer (state_of self.now) (enter_request hour party mw) }
        ensures value { IfOk result (Admitted (state_of self.now) hour (Request (unsigned_abs party) (unsigned_abs mw))) }
    {
        self.require_open()?;
        let hour = self.hour(1, hour)?;
        let party = self.party(2, party)?;
        let mw = self.figure(3, mw)?;
        self.admitted(hour, HourEntry::Request { party, mw })
    }

    // An allot as an entry of its hour.
    fn allotment(&self, hour: i64) -> Result<(HourNumber, HourEntry), Refusal>
        ensures answer { told result ≡ (day_is_open (state_of self.now) then is_hour_at (state_of self.now) 1 hour
            then is_unallotted (state_of self.now) hour
            then supply_answer self.now.pool.parties (hour_named (state_of self.now) hour) (unsigned_abs hour)) }
        ensures value { IfOk result (Admitted (state_of self.now) hour Allot) }
    {
        self.require_open()?;
        let hour = self.hour(1, hour)?;
        self.admitted(hour, HourEntry::Allot)
    }

    // A deployment as an entry of its hour.
    fn deployment(&self, hour: i64, buyer: i64, mw: i64) -> Result<(HourNumber, HourEntry), Refusal>
        ensures answer { told result ≡ (day_is_open (state_of self.now) then is_hour_at (state_of self.now) 1 hour
            then is_party_at (state_of self.now) 2 buyer then is_figure_at (state_of self.now) 3 mw
            then is_allotted (state_of self.now) hour then is_within_served (state_of self.now) hour buyer mw) }
        ensures value { IfOk result (Admitted (state_of self.now) hour (Deploy (unsigned_abs buyer) (unsigned_abs mw))) }
    {
        self.require_open()?;
        let hour = self.hour(1, hour)?;
        let buyer = self.party(2, buyer)?;
        let mw = self.figure(3, mw)?;
        self.admitted(hour, HourEntry::Deploy { buyer, mw })
    }

    // A miss as an entry of its hour.
    fn miss(
        &self,
        hour: i64,
        seller: i64,
        buyer: i64,
        mwh: i64,
        cover: Cover,
    ) -> Result<(HourNumber, HourEntry), Refusal>
        ensures answer { told result ≡ answer (state_of self.now) (enter_miss hour seller buyer mwh cover) }
        ensures value { IfOk result (Admitted (state_of self.now) hour (Miss (unsigned_abs seller) (unsigned_abs buyer) (unsigned_abs mwh) cover)) }
    {
        self.require_open()?;
        let hour = self.hour(1, hour)?;
        let seller = self.party(2, seller)?;
        let buyer = self.party(3, buyer)?;
        let mwh = self.figure(4, mwh)?;
        let entry = HourEntry::Miss {
            seller,
            buyer,
            mwh,
            cover,
        };
        self.admitted(hour, entry)
    }

    // A party's result in an hour takes the place of the earlier one and clears its request.
    pub fn enter_result(&mut self, hour: i64, party: i64, mw: i64) -> Result<(), Refusal>
        ensures { Stepped self.old (enter_result hour party mw) (told result) self.new }
    {
        let (hour, entry) = self.result(hour, party, mw)?;
        self.day.write(hour, entry, &[0; PARTIES]);
        Ok(())
    }

    // What a party offers in an hour takes the place of its earlier offer.
    pub fn enter_offer(&mut self, hour: i64, party: i64, mw: i64) -> Result<(), Refusal>
        ensures { Stepped self.old (enter_offer hour party mw) (told result) self.new }
    {
        let (hour, entry) = self.offer(hour, party, mw)?;
        self.day.write(hour, entry, &[0; PARTIES]);
        Ok(())
    }

    // What a party requests in an hour, up to its shortfall, takes the place of its earlier request.
    pub fn enter_request(&mut self, hour: i64, party: i64, mw: i64) -> Result<(), Refusal>
        ensures { Stepped self.old (enter_request hour party mw) (told result) self.new }
    {
        let (hour, entry) = self.request(hour, party, mw)?;
        self.day.write(hour, entry, &[0; PARTIES]);
        Ok(())
    }

    // Allots an hour: its requests are met from offers and surpluses, as the rule divides them, and its entries stand
    // from then on.
    pub fn allot<R: DivisionRule>(&mut self, hour: i64, rule: &mut R) -> Result<(), Refusal>
        ensures stepped { Stepped self.old (allot_hour hour R.LIMIT (R.meaning rule.old)) (told result) self.new }
        ensures moved { AllotMoved R.moves (told result) self.old.pool.parties (hour_named (state_of self.old) hour)
            (R.meaning rule.old) (R.meaning rule.new) }
        ensures same_rule { told result ≢ granted → rule.new ≡ rule.old }
    {
        let (hour, entry) = self.allotment(hour)?;
        let holdings = self.hour_record(hour).parts(self.parties(), &entry, rule)?;
        self.day.write(hour, entry, &holdings);
        Ok(())
    }

    // Deploys so many MW for a buyer, as the rule divides them among its sellers, in place of what was deployed for it
    // before, and clears what was missed of that.
    pub fn deploy<R: DivisionRule>(
        &mut self,
        hour: i64,
        buyer: i64,
        mw: i64,
        rule: &mut R,
    ) -> Result<(), Refusal>
        ensures stepped { Stepped self.old (deploy hour buyer mw R.LIMIT (R.meaning rule.old)) (told result) self.new }
        ensures moved { Moved R.moves (told result) (R.meaning rule.old) (unsigned_abs mw)
            (pairs_of self.old.pool.parties (hour_named (state_of self.old) hour) (unsigned_abs buyer))
            (R.meaning rule.new) }
        ensures same_rule { told result ≢ granted → rule.new ≡ rule.old }
    {
        let (hour, entry) = self.deployment(hour, buyer, mw)?;
        let shares = self.hour_record(hour).parts(self.parties(), &entry, rule)?;
        self.day.write(hour, entry, &shares);
        Ok(())
    }

    // What a seller missed of a deployment takes the place of the pair's earlier miss.
    pub fn enter_miss(
        &mut self,
        hour: i64,
        seller: i64,
        buyer: i64,
        mwh: i64,
        cover: Cover,
    ) -> Result<(), Refusal>
        ensures { Stepped self.old (enter_miss hour seller buyer mwh cover) (told result) self.new }
    {
        let (hour, entry) = self.miss(hour, seller, buyer, mwh, cover)?;
        self.day.write(hour, entry, &[0; PARTIES]);
        Ok(())
    }
}
