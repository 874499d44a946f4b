// A source of index prices.
ghost use Rattle.std.specs.Prelude.{◌≡◌};
ghost use Rattle.tariff.specs.Answers.{Gives};
ghost use Rattle.tariff.specs.Quotes.{quote_answer, quoted_prices};
ghost use Rattle.tariff.specs.Tables.{Tables, Limited};

use crate::blocks::{Block, DayKind};
use crate::prices::{HourPrices, Terms};
use crate::refusal::{Quote, Refusal};

// Asking alters nothing: each call answers the place of a table, and None where the place is missing. It answers plain
// figures, since what a source means is told in plain figures all the way up; that they keep their limits is its law. A
// day and an hour are asked for as two figures: as a struct they would be made for each call and taken apart in it.
pub trait PriceSource {
    ghost tables: { Self → Tables };

    // The day-ahead price of a day and block.
    fn day_ahead(&self, day: u64, block: Block) -> Option<i64>
        ensures { result ≡ (tables self.now).day_ahead day block };

    // The real-time price of a day and hour.
    fn real_time(&self, day: u64, hour: u64) -> Option<i64>
        ensures { result ≡ (tables self.now).real_time day hour };

    // The shaping factor of a day and hour.
    fn factor(&self, day: u64, hour: u64) -> Option<u64>
        ensures { result ≡ (tables self.now).factor day hour };

    ghost limited: { (source : Self) → Limited (tables source) };
}

// The prices of an hour by a source, or a refusal that names the first figure that is missing.
pub fn price_hour<S: PriceSource>(
    source: &S,
    terms: Terms,
    kind: DayKind,
    day: u64,
    hour: u64,
) -> Result<HourPrices, Refusal>
    ensures { Gives (quote_answer (S.tables source.now) kind day hour)
        (quoted_prices terms (S.tables source.now) kind day hour) result }
{
    let missing = |quote| Refusal::MissingPrice { hour, quote };
    let block = kind.block(hour)?;
    let day_ahead = source
        .day_ahead(day, block)
        .ok_or(missing(Quote::DayAhead))?;
    let real_time = source.real_time(day, hour).ok_or(missing(Quote::RealTime))?;
    let factor = source.factor(day, hour).ok_or(missing(Quote::Factor))?;
    terms.price(day_ahead, real_time, factor)
}
