// The cases of the program `exercises` on elements, tables, forecasts, bad rows, additions, subtractions, values and lines. A digit is written
// as the byte that it is in a row: its alphabet index, two hexadecimal digits; one of a string by its input index.
#![tactic(auto)]

pub mod additions;
pub mod arithmetic;
pub mod bad_rows;
pub mod degrees;
pub mod forecasts;
pub mod lines;
mod output;
pub mod subtractions;
pub mod tables;
pub mod values;
