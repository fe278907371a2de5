// The values that a function of the C interface answers, laid into slots of a lent list: what a call
// leaves in them is defined in specs/, by `overlay`.

#![tactic(auto)]

pub use overlay::lay;
