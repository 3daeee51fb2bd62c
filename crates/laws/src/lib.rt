// Theorems only: laws about the definitions of `meaning`, in specs/, each stated once and cited by the layers above.
// (A crate has a function, so that there is something to prove.)
#![tactic(auto)]

pub fn nothing() {}
