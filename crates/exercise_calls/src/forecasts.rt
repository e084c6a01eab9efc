// Forecasts.
use crate::{output, tables};
use std::io;

fn by_table(rt: &impl Print, label: &str, table: &[u8], digits: usize) -> io::Result<()> {
    output::forecasted(rt, label, forecast::forecast(table, digits))
}

fn by_tern(rt: &impl Print, label: &str, digits: usize) -> io::Result<()> {
    by_table(rt, label, &carried::tern(), digits)
}

// Of TERN every two leaves fit; in BIN the words of 1 and −1 have two digits. Rule 14 isn't asked, so that M12's table has a forecast too.
pub fn of_tables(rt: &impl Print) -> io::Result<()> {
    by_tern(rt, "TERN 4", 4)?;
    by_table(rt, "BIN 4", &carried::bin(), 4)?;
    by_table(rt, "M12 4", &tables::damaged(), 4)
}

// 20 above 256 digits; a number whose lowest byte is 0 is no smaller for it.
pub fn of_lengths(rt: &impl Print) -> io::Result<()> {
    by_tern(rt, "TERN 0", 0)?;
    by_tern(rt, "TERN 256", 256)?;
    by_tern(rt, "TERN 257", 257)?;
    by_tern(rt, "TERN 4294967296", 4294967296)?;
    by_tern(rt, "TERN 18446744073709551615", 18446744073709551615)
}

// The table's fault comes first.
pub fn of_no_table(rt: &impl Print) -> io::Result<()> {
    by_table(rt, "none 257", b"", 257)
}
