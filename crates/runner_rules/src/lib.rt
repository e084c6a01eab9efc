// No function: check, addition and a list of edits one after the other, as definitions with their laws.
#![tactic(auto)]

// The facts of a run: how many edits were called.
#[derive(Clone, Copy)]
pub struct RanFacts {
    pub edits: usize,
}

// The answer of an edit in three numbers: whose (0 facts, 1 author, 2 rows, 3 editor), the fault's number (0 of facts), its place or
// the count.
#[derive(Clone, Copy)]
pub struct Told {
    pub whose: usize,
    pub number: usize,
    pub value: usize,
}
