// The tables TERN and BIN, carried as constant arrays and handed out as files. Directory and base are stored as they stand in the file; of
// digits and leaves the non-negative half is: the digits from zero up, and the leaves whose words begin with one of these, each with its
// length, its word, filled up with zeros to the longest, and its weight. The other half is formed by mirroring.
#![tactic(auto)]

ghost use Rattle.std.specs.Prelude.{◌≡◌};
ghost use Rattle.carried.specs.Tables.{tern_file, bin_file};

const TERN_HEAD: [u8; 28] = [
    20, 0, 8, 0, 28, 0, 20, 0, 48, 0, 36, 0, 84, 0, 72, 0, 156, 0, 9, 0, 0, 0, 255, 255, 3, 0, 0, 0,
];

const TERN_ALPHABET: [u8; 3] = [0, 1, 2];

const TERN_INPUTS: [u8; 5] = [0, 1, 2, 3, 4];

const TERN_LENGTHS: [u8; 5] = [1, 1, 1, 1, 1];

const TERN_WORDS: [u8; 5] = [0, 1, 2, 3, 4];

const TERN_WEIGHTS: [u8; 5] = [0, 0, 1, 1, 1];

const BIN_HEAD: [u8; 28] = [
    20, 0, 8, 0, 28, 0, 12, 0, 40, 0, 20, 0, 60, 0, 104, 0, 164, 0, 23, 0, 0, 0, 255, 255, 2, 0, 0,
    0,
];

const BIN_ALPHABET: [u8; 2] = [0, 1];

const BIN_INPUTS: [u8; 3] = [0, 1, 2];

const BIN_LENGTHS: [u8; 7] = [1, 2, 2, 2, 2, 2, 1];

const BIN_WORDS: [u8; 14] = [0, 0, 1, 0, 1, 1, 1, 2, 1, 3, 1, 4, 2, 0];

const BIN_WEIGHTS: [u8; 7] = [0, 0, 1, 1, 0, 0, 1];

pub fn tern() -> [u8; 165]
    ensures { result ≡ tern_file }
{
    let mut file = [0u8; 165];
    mirror::mirrored(
        &mut file,
        &TERN_HEAD,
        &TERN_ALPHABET,
        &TERN_INPUTS,
        1,
        &TERN_LENGTHS,
        &TERN_WORDS,
        &TERN_WEIGHTS,
    );
    file
}

pub fn bin() -> [u8; 187]
    ensures { result ≡ bin_file }
{
    let mut file = [0u8; 187];
    mirror::mirrored(
        &mut file,
        &BIN_HEAD,
        &BIN_ALPHABET,
        &BIN_INPUTS,
        2,
        &BIN_LENGTHS,
        &BIN_WORDS,
        &BIN_WEIGHTS,
    );
    file
}
