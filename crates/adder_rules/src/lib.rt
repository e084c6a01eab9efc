// No function: addition and subtraction as one definition, with demand 1 and what the result is as theorems.
#![tactic(auto)]

// The facts of addition and of subtraction: n + h, the bytes written, and the longest word that was looked up.
#[derive(Clone, Copy)]
pub struct AddedFacts {
    pub places: usize,
    pub reach: usize,
}
