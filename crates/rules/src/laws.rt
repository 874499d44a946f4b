// A theorem about largest remainder, on the contract of a function that does nothing else.
ghost use Rattle.rules.specs.LargestRemainder.{LargestFirst};

// The units that the whole parts leave go singly to the largest remainders, of equal ones to the earlier.
pub fn units_to_largest()
    ensures { LargestFirst }
{}
