// The ten calls of a book, as entries.
use tariff::blocks::DayKind;
use tariff::charges::Cover;

// Figures are as they were entered.
#[derive(Clone, Copy, Debug, PartialEq, Eq)]
pub enum Entry {
    Open {
        day: i64,
        kind: DayKind,
        month: i64,
    },
    Result {
        hour: i64,
        party: i64,
        mw: i64,
    },
    Offer {
        hour: i64,
        party: i64,
        mw: i64,
    },
    Request {
        hour: i64,
        party: i64,
        mw: i64,
    },
    Allot {
        hour: i64,
    },
    Deploy {
        hour: i64,
        buyer: i64,
        mw: i64,
    },
    Miss {
        hour: i64,
        seller: i64,
        buyer: i64,
        mwh: i64,
        cover: Cover,
    },
    Close,
    Void,
    Year,
}
