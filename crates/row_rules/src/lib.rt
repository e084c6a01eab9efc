// No function: rules 20 to 26 of document 01 as definitions, with what they refuse as theorems.
#![tactic(auto)]

// A digit to be stored: row number, place and alphabet index.
#[derive(Clone, Copy)]
pub struct Change {
    pub row: usize,
    pub place: usize,
    pub digit: u8,
}
