// The delivery factors by which missed energy is charged.
ghost use Rattle.std.specs.Prelude.{◌≡◌};
ghost use Rattle.tariff.specs.Charges.{delivery_factor};

// Whether others covered what a seller missed.
#[derive(Clone, Copy, Debug, PartialEq, Eq)]
pub enum Cover {
    Covered,
    Uncovered,
}

// By the first, the second and every later failure day of a year. Row by row, as the rule's table has them: fields for the
// days would part the rows.
const COVERED: [u64; 3] = [5, 10, 20];

const UNCOVERED: [u64; 3] = [25, 50, 50];

impl Cover {
    // The factor of a miss on a failure day, counted from 1.
    pub fn delivery_factor(self, failure_day: u64) -> u64
        ensures { result ≡ delivery_factor failure_day self }
    {
        let [first, second, later] = match self {
            Cover::Covered => COVERED,
            Cover::Uncovered => UNCOVERED,
        };
        match failure_day {
            0 | 1 => first,
            2 => second,
            _ => later,
        }
    }
}
