// The check of a table.
#![tactic(auto)]

ghost use Rattle.std.specs.Prelude.{◌≡◌};
ghost use Rattle.reader_rules.specs.Table.{base_part, alphabet_part, input_part, leaf_part, word_part};
ghost use Rattle.reader_rules.specs.Check.{table_check};
ghost use Rattle.pairs.specs.Answer.{Searched};
ghost use Rattle.table_rules.specs.Check.{check_outcome};
ghost use Rattle.faults.specs.Answer.{outcome_of};

use faults::Fault;
use table_rules::{Facts, Pair};

// The search of rule 14 in a file that passes 1 to 13: the number of fitting pairs, or the failing pair.
pub fn search(file: &[u8]) -> Result<usize, Pair>
    requires { (table_check file.now).number ≡ 0 }
    ensures { Searched (base_part file.now) (alphabet_part file.now) (input_part file.now) (leaf_part file.now) (word_part file.now) result }
{
    let degree = layout::degree_in(file);
    pairs::search(
        degree,
        reader::section(file, 0),
        reader::section(file, 1),
        reader::section(file, 2),
        reader::section(file, 3),
        reader::section(file, 4),
    )
}

// The check of a table file: accepted with its facts, or the author's fault.
pub fn check(file: &[u8]) -> Result<Facts, Fault>
    ensures { outcome_of result ≡ check_outcome file.now }
{
    let table = reader::read(file)?;
    match search(file) {
        Ok(pairs) => Ok(Facts {
            depth: table.depth,
            leaves: table.leaves.count,
            digits: table.alphabet.count,
            pairs,
        }),
        Err(pair) => Err(Fault::Author {
            number: 14,
            place: pair.upper,
        }),
    }
}
