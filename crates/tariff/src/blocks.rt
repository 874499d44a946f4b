// The heavy and the light block of a day's hours.
ghost use Rattle.tariff.specs.Answers.{Gives};
ghost use Rattle.std.specs.Prelude.{◌≡◌};
ghost use Rattle.tariff.specs.Blocks.{block_of, block_answer, place_of};

use crate::refusal::Refusal;

// A workday (W) is a Monday to Saturday that is no holiday; Sundays and holidays are of the other kind (S).
#[derive(Clone, Copy, Debug, PartialEq, Eq)]
pub enum DayKind {
    Workday,
    Sunday,
}

#[derive(Clone, Copy, Debug, PartialEq, Eq)]
pub enum Block {
    Heavy,
    Light,
}

// The block of each hour of a workday, as a table that is read against the rule. Hours are named by their ends, so hour 1
// comes first.
const WORKDAY: [Block; 24] = [
    Block::Light,
    Block::Light,
    Block::Light,
    Block::Light,
    Block::Light,
    Block::Light,
    Block::Heavy,
    Block::Heavy,
    Block::Heavy,
    Block::Heavy,
    Block::Heavy,
    Block::Heavy,
    Block::Heavy,
    Block::Heavy,
    Block::Heavy,
    Block::Heavy,
    Block::Heavy,
    Block::Heavy,
    Block::Heavy,
    Block::Heavy,
    Block::Heavy,
    Block::Heavy,
    Block::Light,
    Block::Light,
];

// Where an hour stands in a table of a day's hours.
pub fn place_of(hour: u64) -> Option<usize>
    ensures { result ≡ place_of hour }
{
    match usize::try_from(hour) {
        Ok(hour @ 1..=24) => Some(hour - 1),
        _ => None,
    }
}

impl DayKind {
    // The block to which an hour of such a day belongs.
    pub fn block(self, hour: u64) -> Result<Block, Refusal>
        ensures { Gives (block_answer hour) (block_of self hour) result }
    {
        let place = place_of(hour).ok_or(Refusal::Hour { position: 1 })?;
        match self {
            DayKind::Workday => Ok(WORKDAY[place]),
            DayKind::Sunday => Ok(Block::Light),
        }
    }
}
