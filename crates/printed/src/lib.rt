// What a call answers as a line states it: put behind a text, or written as it comes. The programs put a label before it or a line's end behind it.
#![tactic(auto)]

ghost use Rattle.std.specs.Prelude.{◌≡◌, ◌++◌, ◌+◌, ◌*◌, ◌≤◌, length};
ghost use Rattle.text_rules.specs.Fault.{fault_text};
ghost use Rattle.printed.specs.Text.{
  buffer_text,
  counts_text,
  part_text,
  parts_text,
  answer_text,
  checked_text,
  added_text,
  edited_text,
  forecasted_text,
  valued_text,
  failing_text,
};

use adder_rules::AddedFacts;
use bad_row_rules::BadRow;
use edit_rules::EditedFacts;
use faults::Fault;
use forecast_rules::ForecastFacts;
use midpoint::Element;
use ring::Degree;
use std::io;
use table_rules::Facts;
use text::Text;

// Puts a space and a whole buffer.
pub fn put_buffer<const N: usize>(text: &mut Text<N>, bytes: &[u8])
    requires { length text.old + 2 * length bytes.now + 2 ≤ N }
    ensures put { text.new ≡ text.old ++ buffer_text bytes.now }
    ensures within { length text.new ≤ length text.old + 2 * length bytes.now + 2 }
{
    text.push(b' ');
    fault_text::put_hex(text, bytes);
}

// Puts a word and a number, then another word and number.
pub fn put_counts<const N: usize>(text: &mut Text<N>, word: &[u8], n: usize, next: &[u8], m: usize)
    requires { length text.old + length word.now + length next.now + 40 ≤ N }
    ensures put { text.new ≡ text.old ++ counts_text word.now n next.now m }
    ensures within { length text.new ≤ length text.old + length word.now + length next.now + 40 }
{
    text.item(word, n);
    text.item(next, m);
}

// Puts a space and a part.
fn put_part<const N: usize>(text: &mut Text<N>, z: i32)
    requires { length text.old + 12 ≤ N }
    ensures put { text.new ≡ text.old ++ part_text z }
    ensures within { length text.new ≤ length text.old + 12 }
{
    text.push(b' ');
    text.signed(z);
}

// Puts the parts of an element, as many as its degree says.
pub fn put_parts<const N: usize>(text: &mut Text<N>, degree: Degree, x: Element)
    requires { length text.old + 48 ≤ N }
    ensures put { text.new ≡ text.old ++ parts_text degree x }
    ensures within { length text.new ≤ length text.old + 48 }
{
    put_part(text, x.a);
    put_part(text, x.b);
    match degree {
        Degree::Two => (),
        Degree::Three => put_part(text, x.c),
        Degree::Four => {
            put_part(text, x.c);
            put_part(text, x.d);
        }
    }
}

// `accepted depth h leaves L digits A pairs P`: the line of `check` for an accepted table, with the pairs in the place of its line feed.
fn accepted_text(facts: Facts) -> Text<160>
    ensures { result ≡ checked_text facts }
{
    let line = line::accepted_line(facts);
    let bytes = line.as_bytes();
    let mut text: Text<160> = Text::new();
    text.put(&bytes[..bytes.len().saturating_sub(1)]);
    text.item(b" pairs ", facts.pairs);
    text
}

// `refused GROUP N place P`
pub fn refused_text(fault: Fault) -> Text<64>
    ensures { result ≡ fault_text fault }
{
    let mut told: Text<64> = Text::new();
    fault_text::put_fault(&mut told, fault);
    told
}

// `accepted depth h leaves L digits A pairs P`, or the fault.
pub fn checked_text(answer: Result<Facts, Fault>) -> Text<160>
    ensures { result ≡ answer_text checked_text answer }
{
    match answer {
        Ok(facts) => accepted_text(facts),
        Err(fault) => {
            let mut text: Text<160> = Text::new();
            fault_text::put_fault(&mut text, fault);
            text
        }
    }
}

// `WORD K reach R`, or the fault; WORD says which of the two calls it is.
pub fn added_text(word: &[u8], answer: Result<AddedFacts, Fault>) -> Text<80>
    requires { length word.now ≤ 20 }
    ensures { result ≡ answer_text (added_text word.now) answer }
{
    let mut text: Text<80> = Text::new();
    match answer {
        Ok(facts) => put_counts(&mut text, word, facts.places, b" reach ", facts.reach),
        Err(fault) => fault_text::put_fault(&mut text, fault),
    }
    text
}

// `changed C reach R`, or the fault.
pub fn edited_text(answer: Result<EditedFacts, Fault>) -> Text<64>
    ensures { result ≡ answer_text edited_text answer }
{
    let mut text: Text<64> = Text::new();
    match answer {
        Ok(facts) => put_counts(&mut text, b"changed ", facts.count, b" reach ", facts.reach),
        Err(fault) => fault_text::put_fault(&mut text, fault),
    }
    text
}

// `pairs P bytes B`, or the fault.
pub fn forecasted_text(answer: Result<ForecastFacts, Fault>) -> Text<64>
    ensures { result ≡ answer_text forecasted_text answer }
{
    let mut text: Text<64> = Text::new();
    match answer {
        Ok(facts) => put_counts(&mut text, b"pairs ", facts.pairs, b" bytes ", facts.bytes),
        Err(fault) => fault_text::put_fault(&mut text, fault),
    }
    text
}

// `value` and the parts, or the fault.
pub fn valued_text(degree: Degree, answer: Result<Element, Fault>) -> Text<64>
    ensures { result ≡ answer_text (valued_text degree) answer }
{
    let mut text: Text<64> = Text::new();
    match answer {
        Ok(x) => {
            text.put(b"value");
            put_parts(&mut text, degree, x);
        }
        Err(fault) => fault_text::put_fault(&mut text, fault),
    }
    text
}

// `pair U L digit PARTS`, of a bad row.
pub fn failing_text(degree: Degree, row: BadRow) -> Text<100>
    ensures { result ≡ failing_text degree row }
{
    let mut text: Text<100> = Text::new();
    put_counts(&mut text, b"pair ", row.upper, b" ", row.lower);
    text.put(b" digit");
    put_parts(&mut text, degree, row.digit);
    text
}

// A space and a whole buffer.
pub fn buffer(rt: &impl Print, bytes: &[u8]) -> io::Result<()>
    requires { length bytes.now ≤ 1000 }
{
    let mut text: Text<2002> = Text::new();
    put_buffer(&mut text, bytes);
    rt.write_all(text.as_bytes())
}

// `refused GROUP N place P`
pub fn refused(rt: &impl Print, fault: Fault) -> io::Result<()> {
    rt.write_all(refused_text(fault).as_bytes())
}

// The parts of an element, as many as its degree says, a space before each.
pub fn parts(rt: &impl Print, degree: Degree, x: Element) -> io::Result<()> {
    let mut text: Text<48> = Text::new();
    put_parts(&mut text, degree, x);
    rt.write_all(text.as_bytes())
}

// A line: a word and then the parts of an element.
pub fn element(rt: &impl Print, word: &str, degree: Degree, x: Element) -> io::Result<()> {
    print!(rt; "{word}")?;
    parts(rt, degree, x)?;
    println!(rt; "")
}

// `accepted depth h leaves L digits A pairs P`, or the fault.
pub fn checked(rt: &impl Print, answer: Result<Facts, Fault>) -> io::Result<()> {
    rt.write_all(checked_text(answer).as_bytes())
}

// `sum K reach R`, or the fault; of a difference with that word.
pub fn added(rt: &impl Print, word: &str, answer: Result<AddedFacts, Fault>) -> io::Result<()> {
    if answer.is_ok() {
        print!(rt; "{word}")?;
    }
    rt.write_all(added_text(b" ", answer).as_bytes())
}

// `changed C reach R`, or the fault.
pub fn edited(rt: &impl Print, answer: Result<EditedFacts, Fault>) -> io::Result<()> {
    rt.write_all(edited_text(answer).as_bytes())
}

// `pairs P bytes B`, or the fault.
pub fn forecasted(rt: &impl Print, answer: Result<ForecastFacts, Fault>) -> io::Result<()> {
    rt.write_all(forecasted_text(answer).as_bytes())
}

// `value` and the parts, or the fault.
pub fn valued(rt: &impl Print, degree: Degree, answer: Result<Element, Fault>) -> io::Result<()> {
    rt.write_all(valued_text(degree, answer).as_bytes())
}

// `pair U L digit PARTS`, of a bad row.
pub fn failing(rt: &impl Print, degree: Degree, row: BadRow) -> io::Result<()> {
    rt.write_all(failing_text(degree, row).as_bytes())
}
