// The call that shows a bad row, for C and Rust.
ghost use Rattle.std.specs.Prelude.{◌≡◌, ◌≤◌, length};
ghost use Rattle.lists.specs.Overwrite.{overwrite};
ghost use Rattle.layout_rules.specs.Section.{degree_in};
ghost use Rattle.bad_row_rules.specs.BadRow.{bad_row_outcome, bad_row_in};
ghost use Rattle.answer_rules.specs.Answer.{if_room, returned, answered, bad_row_words};

// Writes nine bytes at the start of a buffer.
fn put_nine(out: &mut [u8], bytes: &[u8; 9])
    requires { 9 ≤ length out.old }
    ensures nine { length bytes.now ≡ 9 }
    ensures written { out.new ≡ overwrite out.old 0 bytes.now }
{
    octets::put(out, 0, bytes);
}

// The string goes into the first bytes of `string`, as many as word 1 says; where that has fewer than nine both arrays are left alone. The call
// takes an array of nine, so these are copied out and written back.
#[unsafe(no_mangle)]
pub extern "C" fn yoyomyrtle_bad_row(table: &[u8], string: &mut [u8], answer: &mut [i64]) -> u64
    ensures outcome { result
        ≡ if_room 9 (length string.old) (returned (bad_row_outcome table.now) answer.old) 2 }
    ensures answer { answer.new
        ≡ if_room 9 (length string.old)
        (answered (bad_row_words (degree_in table.now)) (bad_row_outcome table.now) answer.old) answer.old }
    ensures string { string.new
        ≡ if_room 9 (length string.old)
        (if_room 8 (length answer.old) (bad_row_in table.now string.old) string.old) string.old }
{
    if answer.len() < 8 {
        return 2;
    }
    if string.len() < 9 {
        return 2;
    }
    let mut bytes = [0u8; 9];
    octets::put(&mut bytes, 0, &string[..9]);
    let degree = layout::degree_in(table);
    let status = answers::shown(degree, answer, bad_row::bad_row(table, &mut bytes));
    put_nine(string, &bytes);
    status
}
