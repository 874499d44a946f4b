// What any list of calls to a book comes to by the rules alone, and what every such list keeps. There is no program here:
// the definitions are in specs/, and each function only carries a theorem about them.
#![tactic(auto)]

pub mod laws;
pub mod worked;
