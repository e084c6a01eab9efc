// The program `vectors`: calls on standard input, a line for each on standard output (docs/VECTORS.md).
#![tactic(auto)]

mod input;
mod output;
mod requests;

use requests::OnRows;
use std::io;

// Reads one call and writes its line. An error ends the run: the end of the input, a call that is cut, a byte that names no
// call.
fn answered(rt: &(impl Input + Print)) -> io::Result<()> {
    match input::byte(rt)? {
        1 => requests::check(rt),
        2 => requests::on_rows(rt, OnRows::Addition),
        3 => requests::on_rows(rt, OnRows::Edit),
        4 => requests::value(rt),
        5 => requests::midpoint(rt),
        6 => output::table_bytes(rt, &carried::tern()),
        7 => output::table_bytes(rt, &carried::bin()),
        8 => requests::on_rows(rt, OnRows::Subtraction),
        9 => requests::bad_row(rt),
        17 => requests::forecast(rt),
        19 => requests::look_up(rt),
        _ => Err(io::Error::from(io::ErrorKind::InvalidData)),
    }
}

// A loop has to end, so the calls are counted up to a number that no run reaches.
fn main(rt: HostRuntime) {
    for _ in 0..100000 {
        if answered(&rt).is_err() {
            break;
        }
    }
}
