// The check.
use crate::output;
use std::io;

// TERN with weight 0 at input 2, whose record is leaf 2's: 20 bytes of directory, 64 of base and digits, two records, four bytes.
pub fn damaged() -> [u8; 165] {
    let mut file = carried::tern();
    file[104] = 0;
    file
}

// BIN with weight 0 at leaf 2, whose word is 1, 1: 20 bytes of directory, 40 of base and digits, two records, four bytes.
pub fn damaged_bin() -> [u8; 187] {
    let mut file = carried::bin();
    file[80] = 0;
    file
}

// BIN with weight 1 at leaf 1, whose word is 1, 0, and 0 as before at that of −1, 0: accepted, and not mirrored.
pub fn unmirrored() -> [u8; 187] {
    let mut file = carried::bin();
    file[72] = 1;
    file
}

// TERN with weight 1 at leaf 0: 13 is the last rule before 14.
pub fn with_weight_at_zero() -> [u8; 165] {
    let mut file = carried::tern();
    file[88] = 1;
    file
}

// TERN with 3, 4 for the alphabet digits −1, −2, and 5 to 8 for the input digits −1 to −4: every sum is listed, and no difference below zero.
pub fn without_negatives() -> [u8; 165] {
    let mut file = carried::tern();
    file[40] = 3;
    file[41] = 0;
    file[44] = 4;
    file[45] = 0;
    file[68] = 5;
    file[69] = 0;
    file[72] = 6;
    file[73] = 0;
    file[76] = 7;
    file[77] = 0;
    file[80] = 8;
    file[81] = 0;
    file
}

// M12
pub fn without_weight(rt: &impl Print) -> io::Result<()> {
    output::checked(rt, "M12", table::check(&damaged()))
}

pub fn carried_tables(rt: &impl Print) -> io::Result<()> {
    output::checked(rt, "TERN", table::check(&carried::tern()))?;
    output::checked(rt, "BIN", table::check(&carried::bin()))
}
