// The program's line, by the function that the program `check` hands its input to.
ghost use Rattle.std.specs.Prelude.{◌≤◌, length};

use crate::tables;
use std::io;

// `LABEL LINE`; the line ends itself.
fn shown(rt: &impl Print, label: &str, file: &[u8]) -> io::Result<()> {
    let mut line = [0u8; 128];
    let written = line::check_line(file, &mut line);
    print!(rt; "{label}")?;
    rt.write_all(&line[..written])
}

// Of the first bytes of a file.
fn cut(rt: &impl Print, label: &str, file: &[u8], end: usize) -> io::Result<()>
    requires { end ≤ length file.now }
{
    shown(rt, label, &file[..end])
}

// No byte, one fewer than the directory has, the most that a file may have, one more.
fn of_sizes(rt: &impl Print) -> io::Result<()> {
    shown(rt, "line of no byte: ", b"")?;
    cut(rt, "line of 19 bytes: ", &carried::tern(), 19)?;
    let zeros = [0u8; 65536];
    cut(rt, "line of 65535 bytes: ", &zeros, 65535)?;
    shown(rt, "line of 65536 bytes: ", &zeros)
}

// A byte is missing; a section doesn't start where the one before ends.
fn of_damaged(rt: &impl Print) -> io::Result<()> {
    let mut file = carried::tern();
    cut(rt, "line of TERN cut short: ", &file, 164)?;
    file[8] = 49;
    shown(rt, "line of a wrong directory: ", &file)
}

// Refused files, M12 among them, and the carried tables.
pub fn of_files(rt: &impl Print) -> io::Result<()> {
    of_sizes(rt)?;
    of_damaged(rt)?;
    shown(rt, "line of M12: ", &tables::damaged())?;
    shown(rt, "line of TERN: ", &carried::tern())?;
    shown(rt, "line of BIN: ", &carried::bin())
}
