// What passes between a seller and a buyer in one block.

// The buyer pays the first three, the seller the charges.
#[derive(Clone, Copy, Debug, PartialEq, Eq)]
pub struct Payment {
    pub holdback: i64,
    pub energy: i64,
    pub make_whole: i64,
    pub to_pool: i64,
    pub to_buyer: i64,
}

impl Payment {
    pub const NONE: Payment = Payment {
        holdback: 0,
        energy: 0,
        make_whole: 0,
        to_pool: 0,
        to_buyer: 0,
    };
}
