// The prices by which a close settles the day.
ghost use Rattle.std.specs.Prelude.{◌≡◌, IfOk};
ghost use Rattle.tally.specs.DayPrices.{needed_prices, needed_quotes_answer};
ghost use Rattle.tariff.specs.Answers.{in_order, told};
ghost use Rattle.tariff.specs.Blocks.{hours_of_day};
ghost use Rattle.book.specs.Books.{state_of};
ghost use Rattle.book.specs.PricedDays.{prices_in};

use crate::book::Book;
use crate::places::HourNumber;
use crate::priced_day::PricedDay;
use crate::priced_day::pricing::by_block;
use crate::records::HOURS;
use tariff::blocks::Block;
use tariff::refusal::Refusal;
use tariff::source::PriceSource;

mod asking;
mod hour_prices;

impl Book {
    // The prices that a close needs, each asked for once, or the first of them that is missing.
    pub(crate) fn price<S: PriceSource>(&self, source: &S) -> Result<PricedDay, Refusal>
        ensures answer { told result
            ≡ in_order (needed_quotes_answer (state_of self.now) (S.tables source.now)) hours_of_day }
        ensures value { IfOk result (λ day. prices_in day ≡ needed_prices (state_of self.now) (S.tables source.now)) }
        ensures kind { IfOk result (λ day. day.kind ≡ self.now.day.kind) }
    {
        let heavy = self.ask_block(source, Block::Heavy);
        let light = self.ask_block(source, Block::Light);
        let mut real_time = [0; HOURS];
        let mut factors = [0; HOURS];
        for place in 0..HOURS {
            let hour = HourNumber::at(place);
            let price = by_block(heavy, light, hour.block(self.day.kind));
            let quotes = self.ask_hour(source, hour, price)?;
            real_time[place] = quotes.real_time;
            factors[place] = quotes.factor;
        }
        Ok(PricedDay::new(
            self.day.kind,
            heavy.cents.unwrap_or(0),
            light.cents.unwrap_or(0),
            real_time,
            factors,
        ))
    }
}
