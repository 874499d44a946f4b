// What a seller is charged in a day.
use crate::records::{ByHour, ByParty};

// A row for each hour, with an entry for each buyer. Most sellers are charged nothing in a day, and have no rows.
#[derive(Clone, Copy)]
pub(crate) enum CutTable {
    Nothing,
    Cuts { rows: ByHour<ByParty<u64>> },
}
