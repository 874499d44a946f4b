// Theorems about the definitions, each on the contract of a function that does nothing else.
ghost use Rattle.tariff.specs.Rounding.{RoundsHalfUp};

// Prices are rounded to the nearest cent, and halves go up.
pub fn rounds_half_up()
    ensures { RoundsHalfUp }
{}
