// Worked figures and refusals, as theorems about the definitions.
ghost use Rattle.tally.specs.WorkedAccounts.{WorkedAccounts};
ghost use Rattle.tally.specs.WorkedCharges.{WorkedCharges};
ghost use Rattle.tally.specs.WorkedDay.{WorkedDay};
ghost use Rattle.tally.specs.WorkedHours.{WorkedHours};
ghost use Rattle.tally.specs.WorkedRefusals.{WorkedRefusals};

// What calls leave of an hour's entries, allotment, pairs, deployments and misses comes out as it was worked out by hand.
pub fn worked_hours_hold()
    ensures { WorkedHours }
{}

// Payments and make-whole of a worked day, and what it adds to the year, come out as they were worked out by hand.
pub fn worked_day_holds()
    ensures { WorkedDay }
{}

// Delivery charges come out as they were worked out by hand, cut by the ceiling of the year or left whole.
pub fn worked_charges_hold()
    ensures { WorkedCharges }
{}

// The turns of a close, what a statement pays and takes, and what a year keeps come out as they were worked out by hand.
pub fn worked_accounts_hold()
    ensures { WorkedAccounts }
{}

// Each call meets each of its refusals, with its number and places; 73 of a close is shown at the tests of its divisions.
pub fn worked_refusals_hold()
    ensures { WorkedRefusals }
{}
