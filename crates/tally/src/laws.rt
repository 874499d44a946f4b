// What every list of calls keeps, each law on the contract of a function that does nothing else.
ghost use Rattle.tally.specs.AccountLaws.{AccountsBalance, OnlyPartiesPay};
ghost use Rattle.tally.specs.ChargeLaws.{CeilingNeverFalls, ChargesCutInTurn, ChargesWithinCeiling};
ghost use Rattle.tally.specs.Laws.{AcceptedSetUpsProper};
ghost use Rattle.tally.specs.PairLaws.{AllottedHoursStand, DeploymentsDivided, MissesWithinDeployments, PairsMeet};
ghost use Rattle.tally.specs.RevenueLaws.{RevenueReached};
ghost use Rattle.tally.specs.RuleLaws.{HandedWithinLimits, OnlyClaimCountsRefused};
ghost use Rattle.tally.specs.SizeLaws.{DuesFit, PaymentsFit, YearsFit};
ghost use Rattle.tally.specs.Turns.{UnmovedRulesKeepOneMeaning};

// A set-up whose figures are accepted is one that the other laws speak of.
pub fn accepted_set_ups_proper()
    ensures { AcceptedSetUpsProper }
{}

// In each allotted hour every buyer's pairs add up to its confirmed request and every seller's to its holding, which
// stays within its counted offer plus surplus.
pub fn pairs_meet()
    ensures { PairsMeet }
{}

// While its day is open, an allotted hour keeps what it was allotted by, and its holdings.
pub fn allotted_hours_stand()
    ensures { AllottedHoursStand }
{}

// A deployment is divided whole among its buyer's sellers.
pub fn deployments_divided()
    ensures { DeploymentsDivided }
{}

// What is deployed stays within its pair, and a miss never passes its deployment.
pub fn misses_within_deployments()
    ensures { MissesWithinDeployments }
{}

// What is due to all accounts, the pool's with them, adds up to 0.
pub fn accounts_balance()
    ensures { AccountsBalance }
{}

// A number above the last party's has no payment on any statement.
pub fn only_parties_pay()
    ensures { OnlyPartiesPay }
{}

// At each close what a seller's buyers pay, make-whole included, and its credits reach its block sale revenue, and equal
// it where make-whole is above 0.
pub fn revenue_reached()
    ensures { RevenueReached }
{}

// A seller's delivery charges of a year stay within its ceiling.
pub fn charges_within_ceiling()
    ensures { ChargesWithinCeiling }
{}

// No ceiling falls but by a year that is granted.
pub fn ceiling_never_falls()
    ensures { CeilingNeverFalls }
{}

// Each charge is cut to what the ceiling still allows after those before it.
pub fn charges_cut_in_turn()
    ensures { ChargesCutInTurn }
{}

// What a call hands to a rule is within its limits: a total from 0 to 10^12, with a claim above 0 where it is above 0, and
// at most 12 claims of at most 500,000.
pub fn handed_within_limits()
    ensures { HandedWithinLimits }
{}

// So of a rule's refusals only that for too many claims can come out of a call, with their count and the rule's limit.
pub fn only_claim_counts_refused()
    ensures { OnlyClaimCountsRefused }
{}

// A rule that never moves its meaning makes all divisions of a close by the one that it had at the call.
pub fn unmoved_rules_keep_one_meaning()
    ensures { UnmovedRulesKeepOneMeaning }
{}

// No figure of a statement passes 2 × 10^13 cents.
pub fn payments_fit()
    ensures { PaymentsFit }
{}

// Nothing that is due to an account passes what 64 bits hold.
pub fn dues_fit()
    ensures { DuesFit }
{}

// Failure days, misses and ceilings of a year stay small.
pub fn years_fit()
    ensures { YearsFit }
{}
