//! The line that a refusal prints.

ghost use Rattle.std.specs.Prelude.{◌≡◌, ◌+◌, ◌≤◌, ◌++◌, length};
ghost use Rattle.arrayvec.specs.ArrayString.{array_string_len};
ghost use Rattle.byte_streams.specs.Refusals.{line_text, number_text, parts_in, without_line};

use crate::line_parts::LineParts;
use arrayvec::ArrayString;

/// The room for a line, in bytes. No refusal has a longer one.
pub const LINE_ROOM: usize = 60;

impl LineParts {
    /// The parts of a refusal of no line.
    pub fn without_line(area: &'static str, name: &'static str, number: u8) -> LineParts
        requires area { length area.now ≤ 8 }
        requires name { length name.now ≤ 16 }
        ensures { parts_in result ≡ without_line area.now name.now number }
    {
        LineParts {
            area,
            line: None,
            name,
            number,
        }
    }
}

/// The line of a refusal: a beginning, and the parts after it. Takes no memory.
pub fn refusal_line(beginning: &str, parts: LineParts) -> ArrayString<LINE_ROOM>
    requires { length beginning.now ≤ 8 }
    ensures { result.bytes ≡ line_text beginning.now (parts_in parts) }
{
    let mut line = ArrayString::new();
    line.push_str(beginning);
    line.push_str(parts.area);
    line.push_str(" ");
    push_number(&mut line, parts.line);
    line.push_str(parts.name);
    line.push_str(" ");
    line.push_str(itoa::Buffer::new().format(parts.number));
    line.push_str("\n");
    line
}

/// Appends the number of a line and a blank, if there is a number.
fn push_number(line: &mut ArrayString<LINE_ROOM>, number: Option<usize>)
    requires { array_string_len line.old ≤ 17 }
    ensures bytes { line.new.bytes ≡ line.old.bytes ++ number_text number }
    ensures len { array_string_len line.new ≤ array_string_len line.old + 21 }
{
    if let Some(number) = number {
        line.push_str(itoa::Buffer::new().format(number));
        line.push_str(" ");
    }
}
