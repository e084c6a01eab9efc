// The answer of each call in the lent array for C: 0 and the facts, or the fault. What the call returns: 0 for facts, 1 for a fault.
#![tactic(auto)]

ghost use Rattle.std.specs.Prelude.{◌≡◌, ◌≤◌, length};
ghost use Rattle.lists.specs.Overwrite.{overwrite};
ghost use Rattle.answer_rules.specs.Answer.{outcome_status, outcome_words, check_words, forecast_words, add_words, edit_words, run_words, element_words, bad_row_words};
ghost use Rattle.faults.specs.Answer.{outcome_of, outcome_by};
ghost use Rattle.midpoint.specs.Midpoint.{parts};
ghost use Rattle.bad_row.specs.Answer.{shows_of};

use adder_rules::AddedFacts;
use bad_row_rules::BadRow;
use edit_rules::EditedFacts;
use faults::Fault;
use forecast_rules::ForecastFacts;
use midpoint::Element;
use ring::Degree;
use runner_rules::RanFacts;
use table_rules::Facts;

pub fn checked(answer: &mut [i64], given: Result<Facts, Fault>) -> u64
    requires { 8 ≤ length answer.old }
    ensures status { result ≡ outcome_status (outcome_of given) }
    ensures answer { answer.new ≡ overwrite answer.old 0 (outcome_words check_words (outcome_of given)) }
{
    match given {
        Ok(f) => {
            answer_words::put(
                answer,
                &[
                    0,
                    answer_words::word(f.depth),
                    answer_words::word(f.leaves),
                    answer_words::word(f.digits),
                    answer_words::word(f.pairs),
                ],
            );
            0
        }
        Err(fault) => answer_words::refuse(answer, fault),
    }
}

pub fn forecasted(answer: &mut [i64], given: Result<ForecastFacts, Fault>) -> u64
    requires { 8 ≤ length answer.old }
    ensures status { result ≡ outcome_status (outcome_of given) }
    ensures answer { answer.new ≡ overwrite answer.old 0 (outcome_words forecast_words (outcome_of given)) }
{
    match given {
        Ok(f) => answer_words::put_numbers(answer, f.pairs, f.bytes),
        Err(fault) => answer_words::refuse(answer, fault),
    }
}

// Addition and subtraction answer with the same facts.
pub fn added(answer: &mut [i64], given: Result<AddedFacts, Fault>) -> u64
    requires { 8 ≤ length answer.old }
    ensures status { result ≡ outcome_status (outcome_of given) }
    ensures answer { answer.new ≡ overwrite answer.old 0 (outcome_words add_words (outcome_of given)) }
{
    match given {
        Ok(f) => answer_words::put_numbers(answer, f.places, f.reach),
        Err(fault) => answer_words::refuse(answer, fault),
    }
}

pub fn edited(answer: &mut [i64], given: Result<EditedFacts, Fault>) -> u64
    requires { 8 ≤ length answer.old }
    ensures status { result ≡ outcome_status (outcome_of given) }
    ensures answer { answer.new ≡ overwrite answer.old 0 (outcome_words edit_words (outcome_of given)) }
{
    match given {
        Ok(f) => answer_words::put_numbers(answer, f.count, f.reach),
        Err(fault) => answer_words::refuse(answer, fault),
    }
}

pub fn ran(answer: &mut [i64], given: Result<RanFacts, Fault>) -> u64
    requires { 8 ≤ length answer.old }
    ensures status { result ≡ outcome_status (outcome_of given) }
    ensures answer { answer.new ≡ overwrite answer.old 0 (outcome_words run_words (outcome_of given)) }
{
    match given {
        Ok(f) => answer_words::put_number(answer, f.edits),
        Err(fault) => answer_words::refuse(answer, fault),
    }
}

pub fn valued(degree: Degree, answer: &mut [i64], given: Result<Element, Fault>) -> u64
    requires { 8 ≤ length answer.old }
    ensures status { result ≡ outcome_status (outcome_by parts given) }
    ensures answer { answer.new ≡ overwrite answer.old 0 (outcome_words (element_words degree) (outcome_by parts given)) }
{
    match given {
        Ok(x) => answer_words::put_element(degree, answer, x),
        Err(fault) => answer_words::refuse(answer, fault),
    }
}

pub fn shown(degree: Degree, answer: &mut [i64], given: Result<Option<BadRow>, Fault>) -> u64
    requires { 8 ≤ length answer.old }
    ensures status { result ≡ outcome_status (outcome_by shows_of given) }
    ensures answer { answer.new ≡ overwrite answer.old 0 (outcome_words (bad_row_words degree) (outcome_by shows_of given)) }
{
    match given {
        Ok(shown) => match shown {
            Some(r) => {
                answer_words::put_numbers_element(
                    degree, answer, r.bytes, r.upper, r.lower, r.digit,
                )
            }
            None => answer_words::put_number(answer, 0),
        },
        Err(fault) => answer_words::refuse(answer, fault),
    }
}
