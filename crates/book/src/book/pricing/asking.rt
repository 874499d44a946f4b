// Asking a source for what a close needs, and for nothing else.
ghost use Rattle.std.specs.Prelude.{◌≡◌, pos, IfOk};
ghost use Rattle.tally.specs.DayPrices.{block_at, if_needed, needed_prices, needed_quotes_answer};
ghost use Rattle.tally.specs.DayPrices.{there_if_needed};
ghost use Rattle.tariff.specs.Answers.{Gives, require, told};
ghost use Rattle.tariff.specs.declared.refusal.Quote.TheVariants.{DayAhead, RealTime, Factor};
ghost use Rattle.tariff.specs.declared.refusal.Refusal.TheVariants.{MissingPrice};
ghost use Rattle.book.specs.BlockQuotes.{block_quote};
ghost use Rattle.book.specs.Books.{state_of};

use crate::book::Book;
use crate::places::HourNumber;
use tariff::blocks::Block;
use tariff::refusal::{Quote, Refusal};
use tariff::source::PriceSource;

// A block's day-ahead price, which is asked for where it is needed.
#[derive(Clone, Copy)]
pub(crate) struct BlockQuote {
    pub(crate) is_needed: bool,
    pub(crate) cents: Option<i64>,
}

// One hour's figures; what is not needed stands at 0.
#[derive(Clone, Copy)]
pub(crate) struct HourQuotes {
    pub(crate) real_time: i64,
    pub(crate) factor: u64,
}

// What tells a figure that is missing at an hour.
fn missing(hour: HourNumber, quote: Quote) -> Refusal
    ensures { result ≡ MissingPrice hour quote }
{
    Refusal::MissingPrice {
        hour: hour.number(),
        quote,
    }
}

// That a block's price, if it is needed, is not missing at one of its hours.
fn require_quote(hour: HourNumber, price: BlockQuote) -> Result<(), Refusal>
    ensures { told result
        ≡ require (there_if_needed price.is_needed price.cents) (MissingPrice hour DayAhead) }
{
    if price.is_needed && price.cents.is_none() {
        Err(missing(hour, Quote::DayAhead))
    } else {
        Ok(())
    }
}

impl Book {
    // The day-ahead price of a block, if it is needed.
    pub(crate) fn ask_block<S: PriceSource>(&self, source: &S, block: Block) -> BlockQuote
        ensures { result ≡ block_quote (state_of self.now) (S.tables source.now) block }
    {
        let is_needed = self.is_held_in(block);
        let cents = if is_needed {
            source.day_ahead(self.day.number, block)
        } else {
            None
        };
        BlockQuote { is_needed, cents }
    }

    // The real-time price of an hour, if it is needed.
    fn ask_real_time<S: PriceSource>(
        &self,
        source: &S,
        hour: HourNumber,
        is_needed: bool,
    ) -> Result<i64, Refusal>
        ensures { let quote = (S.tables source.now).real_time self.now.day.number hour in
            Gives (require (there_if_needed is_needed quote) (MissingPrice hour RealTime))
            (if_needed is_needed quote (pos 0)) result }
    {
        if is_needed {
            source
                .real_time(self.day.number, hour.number())
                .ok_or(missing(hour, Quote::RealTime))
        } else {
            Ok(0)
        }
    }

    // The factor of an hour, if it is needed.
    fn ask_factor<S: PriceSource>(
        &self,
        source: &S,
        hour: HourNumber,
        is_needed: bool,
    ) -> Result<u64, Refusal>
        ensures { let quote = (S.tables source.now).factor self.now.day.number hour in
            Gives (require (there_if_needed is_needed quote) (MissingPrice hour Factor))
            (if_needed is_needed quote 0) result }
    {
        if is_needed {
            source
                .factor(self.day.number, hour.number())
                .ok_or(missing(hour, Quote::Factor))
        } else {
            Ok(0)
        }
    }

    // What a close needs of an hour, or the first figure that is missing.
    pub(crate) fn ask_hour<S: PriceSource>(
        &self,
        source: &S,
        hour: HourNumber,
        price: BlockQuote,
    ) -> Result<HourQuotes, Refusal>
        requires { let state = state_of self.now in
            price ≡ block_quote state (S.tables source.now) (block_at state hour) }
        ensures answer { told result ≡ needed_quotes_answer (state_of self.now) (S.tables source.now) hour }
        ensures real_time { let needed = needed_prices (state_of self.now) (S.tables source.now) in
            IfOk result (λ quotes. quotes.real_time ≡ needed.real_time hour) }
        ensures factor { let needed = needed_prices (state_of self.now) (S.tables source.now) in
            IfOk result (λ quotes. quotes.factor ≡ needed.factor hour) }
    {
        require_quote(hour, price)?;
        let real_time = self.ask_real_time(source, hour, price.is_needed)?;
        let factor = self.ask_factor(source, hour, self.held_at(hour) > 0)?;
        Ok(HourQuotes { real_time, factor })
    }
}
