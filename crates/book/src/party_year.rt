// What a party's program year stands at.

// By closed days alone; charges and the ceiling in cents.
#[derive(Clone, Copy, Debug, PartialEq, Eq)]
pub struct PartyYear {
    pub failure_days: u64,
    pub charges: u64,
    pub ceiling: u64,
}
