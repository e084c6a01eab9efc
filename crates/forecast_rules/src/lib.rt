// No function: the forecast as a definition, with demand 1 and what its facts are as theorems.
#![tactic(auto)]

// The facts of the forecast: the number of fitting leaf pairs, and the bytes that the sum of two rows needs.
#[derive(Clone, Copy)]
pub struct ForecastFacts {
    pub pairs: usize,
    pub bytes: usize,
}
