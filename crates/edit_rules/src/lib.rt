// No function: the edit as a definition, with demands 1 and 3 as theorems.
#![tactic(auto)]

// The facts of the edit: how many sum bytes it changed, and the longest word that was looked up.
#[derive(Clone, Copy)]
pub struct EditedFacts {
    pub count: usize,
    pub reach: usize,
}
