// Writing the line of a call, each line whole.
ghost use Rattle.std.specs.Prelude.{◌≤◌, ◌<◌, length};

use adder_rules::AddedFacts;
use bad_row_rules::BadRow;
use edit_rules::EditedFacts;
use faults::Fault;
use forecast_rules::ForecastFacts;
use look_up::Found;
use midpoint::Element;
use ring::Degree;
use std::io;
use table_rules::Facts;
use text::Text;

// Ends a line and writes it.
fn line<const N: usize>(rt: &impl Print, text: &mut Text<N>) -> io::Result<()>
    requires { length text.old < N }
{
    text.push(b'\n');
    rt.write_all(text.as_bytes())
}

// A text that is a line of its own.
fn alone(rt: &impl Print, bytes: &[u8]) -> io::Result<()>
    requires { length bytes.now ≤ 160 }
{
    let mut text: Text<161> = Text::new();
    text.put(bytes);
    line(rt, &mut text)
}

// `table BYTES`, of a file that is carried.
pub fn table_bytes(rt: &impl Print, file: &[u8]) -> io::Result<()>
    requires { length file.now ≤ 200 }
{
    let mut text: Text<512> = Text::new();
    text.put(b"table");
    printed::put_buffer(&mut text, file);
    line(rt, &mut text)
}

// `accepted depth h leaves L digits A pairs P`, or the fault.
pub fn checked(rt: &impl Print, answer: Result<Facts, Fault>) -> io::Result<()> {
    alone(rt, printed::checked_text(answer).as_bytes())
}

// `sum K reach R SUM`, or the fault and SUM; of a difference with that word.
pub fn added(
    rt: &impl Print,
    word: &[u8],
    answer: Result<AddedFacts, Fault>,
    sum: &[u8],
) -> io::Result<()>
    requires { (length word.now ≤ 20) × (length sum.now ≤ 1000) }
{
    let mut text: Text<2200> = Text::new();
    text.put(printed::added_text(word, answer).as_bytes());
    printed::put_buffer(&mut text, sum);
    line(rt, &mut text)
}

// `changed C reach R FIRST SECOND SUM`, or the fault and the three buffers.
pub fn edited(
    rt: &impl Print,
    answer: Result<EditedFacts, Fault>,
    first: &[u8],
    second: &[u8],
    sum: &[u8],
) -> io::Result<()>
    requires { (length first.now ≤ 600) × (length second.now ≤ 600) × (length sum.now ≤ 1000) }
{
    let mut text: Text<4600> = Text::new();
    text.put(printed::edited_text(answer).as_bytes());
    printed::put_buffer(&mut text, first);
    printed::put_buffer(&mut text, second);
    printed::put_buffer(&mut text, sum);
    line(rt, &mut text)
}

// `leaf K length N`
pub fn looked_up(rt: &impl Print, found: Found) -> io::Result<()> {
    let mut text: Text<64> = Text::new();
    printed::put_counts(&mut text, b"leaf ", found.leaf, b" length ", found.length);
    line(rt, &mut text)
}

// `pairs P bytes B`, or the fault.
pub fn forecasted(rt: &impl Print, answer: Result<ForecastFacts, Fault>) -> io::Result<()> {
    alone(rt, printed::forecasted_text(answer).as_bytes())
}

// `value` and the parts, or the fault.
pub fn valued(rt: &impl Print, degree: Degree, answer: Result<Element, Fault>) -> io::Result<()> {
    alone(rt, printed::valued_text(degree, answer).as_bytes())
}

// `midpoint` and the parts.
pub fn midpoint(rt: &impl Print, degree: Degree, x: Element) -> io::Result<()> {
    let mut text: Text<64> = Text::new();
    text.put(b"midpoint");
    printed::put_parts(&mut text, degree, x);
    line(rt, &mut text)
}

// `pair U L digit PARTS string STRING`, as far as the count says of the string, which is never over nine.
fn failing(rt: &impl Print, degree: Degree, row: BadRow, string: &[u8; 9]) -> io::Result<()> {
    let mut text: Text<256> = Text::new();
    text.put(printed::failing_text(degree, row).as_bytes());
    text.put(b" string");
    printed::put_buffer(&mut text, &string[..row.bytes.min(9)]);
    line(rt, &mut text)
}

// The pair of a bad row, its digit and its string, or that there is nothing to show, or the fault.
pub fn shown(
    rt: &impl Print,
    degree: Degree,
    answer: Result<Option<BadRow>, Fault>,
    string: &[u8; 9],
) -> io::Result<()> {
    match answer {
        Ok(Some(row)) => failing(rt, degree, row, string),
        Ok(None) => alone(rt, b"nothing"),
        Err(fault) => alone(rt, printed::refused_text(fault).as_bytes()),
    }
}
