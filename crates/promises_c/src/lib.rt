// Theorems only: what is promised to a caller in C, and so in Rust and Python, who holds a state as 89 words and reads a number, a count and a position off an answer; and
// that the run without a table gives back what the kept one does, in Rattle and in C, with a store lent to both or none. Each statement stands in
// a file of proofs/ that reads alone, its proof in proofs/Proofs/; the words of the statements in specs/.
// (A crate has a function, so that there is something to prove.)
#![tactic(auto)]

pub fn nothing() {}
