// The program `check`: a table on standard input, one line on standard output. It only moves bytes; `line::check_line` makes the line.
#![tactic(auto)]

use std::io;

fn main(rt: HostRuntime) -> io::Result<()> {
    // one byte more than a file may have: a longer input is refused by its size
    let mut file = [0u8; 65536];
    let n = table_input::read_full(&mut rt.stdin(), &mut file)?;
    let mut line = [0u8; 128];
    let written = line::check_line(&file[..n], &mut line);
    rt.write_all(&line[..written])
}
