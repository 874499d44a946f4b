// How an entry of hours gives their real-time price.
ghost use Rattle.std.specs.Prelude.{◌≡◌, ℕ, ℤ, Option, IfOk};
ghost use Rattle.tariff.specs.Answers.{Answer, told};
ghost use Rattle.tariff.specs.Tables.{Priced};

use tariff::figures::Price;
use tariff::refusal::Refusal;

// The figures of an entry, from its third on, from which the real-time price comes.
pub trait RealTime: Copy {
    // The position of the factor, which comes after them.
    const FACTOR: u64;

    ghost FACTOR: { ℕ };

    // Whether they are taken, in their order.
    ghost answer: { Self → Answer };

    // The price that they come to.
    ghost price: { Self → Option ℤ };

    // That price, or the refusal of the first figure that is not taken.
    fn settle(self) -> Result<Option<Price>, Refusal>
        ensures answer { told result ≡ answer self }
        ensures value { IfOk result (λ kept. kept ≡ price self) }
        ensures limits { IfOk result Priced };
}
