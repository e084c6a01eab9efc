// The forecast: the number of a table's fitting leaf pairs, and the bytes that the sum of two rows of so many digits needs. It judges no
// pair's digit and adds nothing.
#![tactic(auto)]

ghost use Rattle.std.specs.Prelude.{◌≡◌, ◌+◌, ◌≤◌, ◌<◌};
ghost use Rattle.numeration.specs.PairCount.{pair_count};
ghost use Rattle.reader_rules.specs.Table.{leaves_in};
ghost use Rattle.reader_rules.specs.Check.{table_check};
ghost use Rattle.forecast_rules.specs.Forecast.{forecast_outcome};
ghost use Rattle.faults.specs.Answer.{outcome_of};

use faults::Fault;
use forecast_rules::ForecastFacts;

// The number of fitting leaf pairs of a table that passes 1 to 13.
fn fitting_pairs(table: &[u8]) -> usize
    requires { (table_check table.now).number ≡ 0 }
    ensures { result ≡ pair_count (leaves_in table.now) }
{
    let degree = layout::degree_in(table);
    runs::pair_count(degree, reader::section(table, 3), reader::section(table, 4))
}

// The facts, the bytes of the sum being n + h.
fn facts_of(pairs: usize, digits: usize, depth: usize) -> ForecastFacts
    requires { (digits ≤ 256) × (0 < depth) × (depth ≤ 8) }
    ensures { result ≡ record { pairs = pairs; bytes = digits + depth } }
{
    ForecastFacts {
        pairs,
        bytes: digits + depth,
    }
}

// The forecast of a table and a number of digits, or the first fault: the author's of the table, or the rows' where the digits are over 256.
pub fn forecast(table: &[u8], digits: usize) -> Result<ForecastFacts, Fault>
    ensures { outcome_of result ≡ forecast_outcome table.now digits }
{
    let facts = reader::read(table)?;
    if let Err(found) = rows::digits_check(digits) {
        return Err(found.by_rows());
    }
    Ok(facts_of(fitting_pairs(table), digits, facts.depth))
}
