// No function: rules 1 to 13 of document 01 together as definitions, with demand 1 for the reader as a theorem.
#![tactic(auto)]

// Where a section lies in the file, and how many records it has.
#[derive(Clone, Copy)]
pub struct Part {
    pub start: usize,
    pub end: usize,
    pub count: usize,
}

// The facts of a table that passes rules 1 to 13.
#[derive(Clone, Copy)]
pub struct Table {
    pub base: Part,
    pub alphabet: Part,
    pub inputs: Part,
    pub leaves: Part,
    pub words: Part,
    pub depth: usize,
}
