// The tariff of a capacity-sharing pool: refusals, blocks of hours, figures within their limits, settlement prices, delivery
// factors, and what price sources and division rules are.
#![tactic(auto)]

pub mod blocks;
pub mod charges;
pub mod division;
pub mod figures;
pub mod laws;
pub mod prices;
pub mod refusal;
pub mod source;
