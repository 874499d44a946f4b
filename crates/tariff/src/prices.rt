// Settlement prices of one hour, in cents per MWh.
ghost use Rattle.std.specs.Prelude.{◌≡◌, ◌*◌, ◌≤◌, pos, ◌*ℤ◌, ◌≤ℤ◌, IfOk, unsigned_abs};
ghost use Rattle.tariff.specs.Answers.{Gives};
ghost use Rattle.tariff.specs.Prices.{is_price, most_price, average_answer, average_price, initial_terms};
ghost use Rattle.tariff.specs.Prices.{total_price, energy_price, hour_prices, prices_answer};
ghost use Rattle.tariff.specs.Rounding.{nearest};

use crate::figures::{Factor, Figure, MOST_PRICE, Price};
use crate::refusal::Refusal;

// What the pool reviews: the cap on the total price in cents, and the adder and the energy share in percent.
#[derive(Clone, Copy, Debug, PartialEq, Eq)]
pub struct Terms {
    pub cap: u32,
    pub adder: u16,
    pub share: u16,
}

// What a buyer pays for each MW held and each MWh delivered, and both together. It has no Display: its text could not be
// promised, as the proof that signed fields behind a reference fit their type does not close.
#[derive(Clone, Copy, Debug, PartialEq, Eq)]
pub struct HourPrices {
    pub total: i64,
    pub energy: i64,
    pub holdback: i64,
}

// Whether a price lies within its limits.
pub fn is_price(price: i64) -> bool
    ensures { result ≡ is_price price }
{
    price.unsigned_abs() <= MOST_PRICE
}

// n / d to the nearest whole number, halves up.
pub(crate) fn nearest_whole(n: i64, d: i64) -> i64
    requires size { unsigned_abs n ≤ 1000000000000000000 }
    requires above { pos 1 ≤ℤ d }
    requires below { d ≤ℤ pos 1000000 }
    ensures { result ≡ nearest n d }
{
    (n + n + d).div_euclid(d + d)
}

// by × price / per to the nearest cent, halves up.
fn scaled(by: i64, price: i64, per: i64) -> i64
    requires size { unsigned_abs by * unsigned_abs price ≤ 1000000000000000000 }
    requires above { pos 1 ≤ℤ per }
    requires below { per ≤ℤ pos 1000000 }
    ensures { result ≡ nearest (by *ℤ price) per }
{
    nearest_whole(by * price, per)
}

// The average of four plain figures, or a refusal that names the first outside its limits.
pub fn average(first: i64, second: i64, third: i64, fourth: i64) -> Result<i64, Refusal>
    ensures value { Gives (average_answer first second third fourth) (average_price first second third fourth) result }
    ensures size { IfOk result (λ price. unsigned_abs price ≤ 1000000) }
{
    let first = Price::enter(first, 1)?;
    let second = Price::enter(second, 2)?;
    let third = Price::enter(third, 3)?;
    let fourth = Price::enter(fourth, 4)?;
    Ok(Price::average(first, second, third, fourth).cents())
}

impl Terms {
    // The terms in force from the first day.
    pub fn initial() -> Terms
        ensures { result ≡ initial_terms }
    {
        Terms {
            cap: 200_000,
            adder: 110,
            share: 80,
        }
    }

    // By what a day-ahead price is multiplied, in millionths.
    fn multiplier(self, factor: Factor) -> i64
        ensures { result ≡ pos (factor * self.adder) }
    {
        i64::from(factor.parts()) * i64::from(self.adder)
    }

    // The total price, which is never below 0.
    fn total_price(self, day_ahead: Price, factor: Factor) -> u32
        ensures { pos result ≡ total_price self day_ahead factor }
    {
        let exact = scaled(self.multiplier(factor), day_ahead.cents(), 1_000_000);
        // i64 has no From to u32, and try_from would need a case that never comes; as is proved to lose nothing.
        exact.clamp(0, i64::from(self.cap)) as u32
    }

    // The energy price at a total price.
    fn energy_price(self, total: u32, real_time: Price) -> i64
        ensures value { result ≡ energy_price self (pos total) real_time }
        ensures size { unsigned_abs result ≤ most_price }
    {
        scaled(i64::from(self.share), i64::from(total), 100).min(real_time.cents())
    }

    // The prices of an hour, or a refusal that names the first figure outside its limits.
    pub fn price(self, day_ahead: i64, real_time: i64, factor: u64) -> Result<HourPrices, Refusal>
        ensures { Gives (prices_answer day_ahead real_time factor) (hour_prices self day_ahead real_time factor) result }
    {
        let day_ahead = Price::enter(day_ahead, 1)?;
        let real_time = Price::enter(real_time, 2)?;
        let factor = Factor::new(factor).ok_or(Refusal::Figure { position: 3 })?;
        let total = self.total_price(day_ahead, factor);
        let energy = self.energy_price(total, real_time);
        Ok(HourPrices {
            total: i64::from(total),
            energy,
            holdback: i64::from(total) - energy,
        })
    }
}
