// Theorems only: the definitions of `meaning` give the answers of the outside cases in vectors/06.txt, in specs/.
// (A crate has a function, so that there is something to prove.)
#![tactic(auto)]

pub fn nothing() {}
