// The line of the program `check`: the check's answer as text.
#![tactic(auto)]

ghost use Rattle.std.specs.Prelude.{◌≡◌, length, ◌≤◌, ◌<◌};
ghost use Rattle.table_rules.specs.Check.{check_outcome};
ghost use Rattle.line_rules.specs.Line.{accepted_line, refused_line, line_of, line_count, line_into};
ghost use Rattle.faults.specs.Answer.{outcome_of};

use faults::Fault;
use table_rules::Facts;
use text::Text;

// The line of an accepted table.
pub fn accepted_line(f: Facts) -> Text<128>
    ensures { result ≡ accepted_line f.depth f.leaves f.digits }
{
    let mut text: Text<128> = Text::new();
    text.item(b"accepted depth ", f.depth);
    text.item(b" leaves ", f.leaves);
    text.item(b" digits ", f.digits);
    text.put(b"\n");
    text
}

fn refused_line(number: usize, place: usize) -> Text<128>
    ensures { result ≡ refused_line number place }
{
    let mut text: Text<128> = Text::new();
    text.item(b"refused ", number);
    text.item(b" place ", place);
    text.put(b"\n");
    text
}

fn line_of(answer: Result<Facts, Fault>) -> Text<128>
    ensures { result ≡ line_of (outcome_of answer) }
{
    match answer {
        Ok(f) => accepted_line(f),
        Err(fault) => match fault {
            Fault::Author { number, place }
            | Fault::Rows { number, place }
            | Fault::Editor { number, place } => refused_line(number, place),
        },
    }
}

// Writes the program's line; the count of its bytes. A buffer under 128 bytes is left as it is, and the count is 0.
pub fn line(answer: Result<Facts, Fault>, out: &mut [u8]) -> usize
    ensures count { result ≡ line_count (outcome_of answer) (length out.old) }
    ensures buffer { out.new ≡ line_into (outcome_of answer) out.old }
    ensures within { result ≤ length out.old }
{
    if out.len() < 128 {
        return 0;
    }
    octets::put(out, 0, line_of(answer).as_bytes())
}

// The program `check` on the bytes that it reads: writes the line for a file; the count of its bytes.
pub fn check_line(file: &[u8], out: &mut [u8]) -> usize
    ensures count { result ≡ line_count (check_outcome file.now) (length out.old) }
    ensures buffer { out.new ≡ line_into (check_outcome file.now) out.old }
    ensures within { result ≤ length out.old }
{
    line(table::check(file), out)
}
