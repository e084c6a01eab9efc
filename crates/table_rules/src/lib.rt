// No function: the check of a table as a definition, with demands 1 and 2 as theorems.
#![tactic(auto)]

// The facts of the check: depth, leaf count, alphabet size and the number of fitting leaf pairs.
#[derive(Clone, Copy)]
pub struct Facts {
    pub depth: usize,
    pub leaves: usize,
    pub digits: usize,
    pub pairs: usize,
}

// Two leaves, upper and lower.
#[derive(Clone, Copy)]
pub struct Pair {
    pub upper: usize,
    pub lower: usize,
}
