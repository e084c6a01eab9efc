// No function: the call that shows a bad row as a definition, with demand 1 and what it shows as theorems.
#![tactic(auto)]

use midpoint::Element;

// What is shown of a table that rule 14 refuses: the two leaves, the digit that comes out, and how many bytes of the string were written.
#[derive(Clone, Copy)]
pub struct BadRow {
    pub upper: usize,
    pub lower: usize,
    pub digit: Element,
    pub bytes: usize,
}
