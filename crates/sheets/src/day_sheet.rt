// The prices of one day, hour by hour.
ghost use Rattle.tariff.specs.Tables.{Priced, Factored};

use std::marker::PhantomData;
use tariff::figures::{Factor, Price};

mod entries;
mod quotes;

// What stands on a sheet for one hour. Its figures' limits are told again, as on the sheet: a law of all sheets sees the
// figures alone.
#[derive(Clone, Copy, Debug, PartialEq, Eq)]
pub(crate) struct Hour {
    pub(crate) real_time: Option<Price>,
    pub(crate) factor: Option<Factor>,
    ghost priced: { Priced real_time },
    ghost factored: { Factored factor },
}

impl Hour {
    ghost use Rattle.std.specs.Prelude.{◌≡◌};
    ghost use Rattle.sheets.specs.DaySheets.{missing};

    // An hour that has no figure.
    fn missing() -> Hour
        ensures { result ≡ missing }
    {
        Hour {
            real_time: None,
            factor: None,
        }
    }
}

// Hour h stands at place h - 1. Entries give the real-time prices by figures of type Q. The heavy and the light price are
// entered in one place and read in one, so that a struct of the two would only be longer.
#[derive(Debug, PartialEq, Eq, Drop)]
pub struct DaySheet<Q> {
    day: u64,
    heavy: Option<Price>,
    light: Option<Price>,
    hours: [Hour; 24],
    entered: PhantomData<Q>,
    ghost heavy_priced: { Priced heavy },
    ghost light_priced: { Priced light },
}
