// Theorems only: what is promised of the definitions of `meaning`. The words of the statements stand in specs/, each statement in a file of proofs/ that reads alone,
// its proof in proofs/Proofs/.
// (A crate has a function, so that there is something to prove.)
#![tactic(auto)]

pub fn nothing() {}
