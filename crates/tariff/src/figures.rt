// Figures that are kept only within their limits: a clause sees each as the figure that it is.
ghost use Rattle.std.specs.Prelude.{◌≡◌, ◌≤◌, ℕ, ◌*◌, ℤ, ◌+ℤ◌, pos, Bool, true, IfOk, IfSome, is_some, unsigned_abs};
ghost use Rattle.std.specs.Option.{option_map};
ghost use Rattle.tariff.specs.Answers.{told, require};
ghost use Rattle.tariff.specs.Figures.{between, or_missing};
ghost use Rattle.tariff.specs.Prices.{average_price, is_price, is_factor, most_price, most_factor};
ghost use Rattle.tariff.specs.declared.refusal.Refusal.TheVariants.{Figure as figure_at};

use crate::prices::{is_price, nearest_whole};
use crate::refusal::Refusal;
use std::marker::Model;

pub(crate) const MOST_PRICE: u64 = 1_000_000;

const MOST_FACTOR: u32 = 100_000;

// A figure of an entry, as it is kept: only within its limits. It is no TryFrom, whose contract would be a relation between
// figure and result, where here an answer is one equation.
pub trait Figure: Sized {
    // The limits of what is entered.
    ghost is_within: { ℤ → Bool };

    // What it was entered as.
    ghost entered: { Self → ℤ };

    // The figure, unless it is outside its limits.
    fn kept(figure: i64) -> Option<Self>
        ensures variant { is_some result ≡ is_within figure }
        ensures value { IfSome result (λ kept. entered kept ≡ figure) };

    // As a plain figure, which is always within the limits.
    fn figure(self) -> i64
        ensures value { result ≡ entered self }
        ensures within { is_within result ≡ true };

    // The figure at a position of its entry, or the refusal that names the position.
    fn enter(figure: i64, position: u64) -> Result<Self, Refusal>
        ensures answer { told result ≡ require (is_within figure) (figure_at position) }
        ensures value { IfOk result (λ kept. entered kept ≡ figure) }
    {
        Self::kept(figure).ok_or(Refusal::Figure { position })
    }
}

// A price, in cents per MWh.
#[derive(Clone, Copy, Debug, PartialEq, Eq, PartialOrd, Ord)]
pub struct Price {
    cents: i32,
}

impl Model for Price {
    ghost Value = { ℤ };

    ghost view = { λ price. price.cents };

    ghost invariant = { λ price. unsigned_abs price.cents ≤ most_price };

    ghost inverse = { λ price. record { cents = price } };
}

// A shaping factor, in ten-thousandths.
#[derive(Clone, Copy, Debug, PartialEq, Eq, PartialOrd, Ord)]
pub struct Factor {
    parts: u32,
}

impl Model for Factor {
    ghost Value = { ℕ };

    ghost view = { λ factor. factor.parts };

    ghost invariant = { λ factor. factor.parts ≤ most_factor };

    ghost inverse = { λ factor. record { parts = factor } };
}

impl Price {
    // The price as a plain figure, which a caller can compute with.
    pub fn cents(self) -> i64
        ensures value { result ≡ self }
        ensures size { unsigned_abs result ≤ most_price }
    {
        i64::from(self.cents)
    }

    // Four prices added up.
    #[tactic(auto, using(crate::proofs::AverageSize::sum_kept, crate::proofs::AverageSize::sum_size, crate::proofs::AverageSize::sum_fits))]
    fn sum(first: Price, second: Price, third: Price, fourth: Price) -> i64
        ensures value { result ≡ first +ℤ second +ℤ third +ℤ fourth }
        ensures size { unsigned_abs result ≤ 4 * most_price }
    {
        first.cents() + second.cents() + third.cents() + fourth.cents()
    }

    // The average of four prices, to the nearest cent: four names as in its rule, where an array would have four indices.
    #[tactic(auto, using(crate::proofs::AverageSize::average_size))]
    pub fn average(first: Price, second: Price, third: Price, fourth: Price) -> Price
        ensures value { result ≡ average_price first second third fourth }
        ensures size { unsigned_abs result ≤ most_price }
    {
        Price {
            // i64 has no From to i32, and try_from would need a case that never comes; as is proved to lose nothing.
            cents: nearest_whole(Price::sum(first, second, third, fourth), 4) as i32,
        }
    }
}

impl Factor {
    // The factor of so many ten-thousandths, unless they pass its limit. No TryFrom, for the reason above.
    pub fn new(parts: u64) -> Option<Factor>
        ensures variant { is_some result ≡ is_factor parts }
        ensures value { IfSome result (λ factor. factor ≡ parts) }
    {
        match u32::try_from(parts) {
            Ok(parts) if parts <= MOST_FACTOR => Some(Factor { parts }),
            _ => None,
        }
    }

    // The factor as a plain figure, which a caller can compute with.
    pub fn parts(self) -> u32
        ensures value { result ≡ self }
        ensures size { result ≤ most_factor }
    {
        self.parts
    }
}

impl Figure for Price {
    ghost is_within = { is_price };

    ghost entered = { λ price. price };

    fn kept(figure: i64) -> Option<Price> {
        match i32::try_from(figure) {
            Ok(cents) if is_price(figure) => Some(Price { cents }),
            _ => None,
        }
    }

    fn figure(self) -> i64 {
        self.cents()
    }
}

impl Figure for Factor {
    ghost is_within = { between 0 most_factor };

    ghost entered = { pos };

    fn kept(figure: i64) -> Option<Factor> {
        u64::try_from(figure).ok().and_then(Factor::new)
    }

    fn figure(self) -> i64 {
        i64::from(self.parts())
    }
}

// A figure that may be left out.
pub fn enter_or_miss<T: Figure + Drop>(
    figure: Option<i64>,
    position: u64,
) -> Result<Option<T>, Refusal>
    ensures answer { told result ≡ require (or_missing T.is_within figure) (figure_at position) }
    ensures value { IfOk result (λ kept. option_map T.entered kept ≡ figure) }
{
    figure.map(|figure| T::enter(figure, position)).transpose()
}
