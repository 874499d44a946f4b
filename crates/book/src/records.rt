// What a book keeps: a record for each hour of the open day, the day, the program year and the set-up.
use tariff::blocks::DayKind;
use tariff::charges::Cover;

// How many parties a pool has at most, and so how many accounts: one for each, and the pool's.
pub(crate) const PARTIES: usize = 12;

pub(crate) const ACCOUNTS: usize = 13;

// The hours of a day, and the months of a year.
pub(crate) const HOURS: usize = 24;

pub(crate) const MONTHS: usize = 12;

// A figure for each party, and for each pair of a buyer and a seller: a row for each buyer.
pub(crate) type ByParty<T> = [T; PARTIES];

pub(crate) type ByPair<T> = [[T; PARTIES]; PARTIES];

// A figure for each hour of a day, and for each month of a year.
pub(crate) type ByHour<T> = [T; HOURS];

pub(crate) type ByMonth<T> = [T; MONTHS];

// What was entered for an hour. A party stands at the place before its number.
#[derive(Clone, Copy)]
pub(crate) struct Entered {
    pub(crate) results: ByParty<i16>,
    pub(crate) offers: ByParty<u16>,
    pub(crate) requests: ByParty<u16>,
}

// What an allotted hour has. Pairs, deployments and misses have a row for each buyer, so that a deployment replaces one
// row.
#[derive(Clone, Copy)]
pub(crate) struct Held {
    pub(crate) holdings: ByParty<u16>,
    pub(crate) pairs: ByPair<u16>,
    pub(crate) deployed: ByPair<u16>,
    pub(crate) missed: ByPair<u16>,
    pub(crate) cover: ByPair<Cover>,
}

// One hour of the open day: it takes entries until it is allotted, and only then holds anything.
#[derive(Clone, Copy)]
pub(crate) enum HourRecord {
    Unallotted { entered: Entered },
    Allotted { entered: Entered, held: Held },
}

#[derive(Clone, Copy)]
pub(crate) struct DayRecord {
    pub(crate) number: u64,
    pub(crate) is_open: bool,
    pub(crate) kind: DayKind,
    pub(crate) hours: ByHour<HourRecord>,
}

// Monthly misses have a row for each seller.
#[derive(Clone, Copy)]
pub(crate) struct YearRecord {
    pub(crate) month: u64,
    pub(crate) failure_days: ByParty<u64>,
    pub(crate) misses: ByParty<ByMonth<u64>>,
    pub(crate) charges: ByParty<u64>,
}

#[derive(Clone, Copy)]
pub(crate) struct Pool {
    pub(crate) parties: usize,
    pub(crate) full_rate: u64,
    pub(crate) step_rate: u64,
}
