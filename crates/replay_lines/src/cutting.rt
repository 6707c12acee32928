//! The parts of an input.

ghost use Rattle.std.specs.Prelude.{◌≡◌, ◌+◌, ◌-◌, ◌^◌, ◌<◌, ◌≤◌, ◌&&◌, length, true};
ghost use Rattle.replay_lines.specs.Inputs as spec;

/// The parts of an input, and the numbers of the lines with which two of them begin; the first line of the input is 1.
#[derive(Clone, Copy)]
pub struct Parts<'a> {
    /// What stands before the first line that begins with `with ` or `at `.
    pub program: &'a [u8],
    /// What stands from there on before the first line that begins with `at `.
    pub values: &'a [u8],
    /// What stands from there on.
    pub schedule: &'a [u8],
    /// The line with which the values begin.
    pub values_line: u64,
    /// The line with which the schedule begins.
    pub schedule_line: u64,
}

/// Whether a part begins here.
fn begins_here(values: bool, begins_line: bool, rest: &[u8]) -> bool
    ensures { result ≡ (begins_line && spec.begins_part values rest.now) }
{
    begins_line && (values && rest.starts_with(b"with ") || rest.starts_with(b"at "))
}

/// The number of the line behind a byte.
fn line_behind(line: u64, byte: u8) -> u64
    requires { line < 2 ^ 64 - 1 }
    ensures { result ≡ line + spec.feed byte }
{
    if byte == b'\n' { line + 1 } else { line }
}

/// The length of what stands before the first line that begins a part, and how many line feeds it has. Lines of values
/// count where they are looked for.
fn part_end(text: &[u8], values: bool) -> (usize, u64)
    ensures end { result.0 ≡ length (spec.before_part values true text.now) }
    ensures feeds { result.1 ≡ spec.feeds (spec.before_part values true text.now) }
    ensures within { result.0 ≤ length text.now }
    ensures small { result.1 ≤ result.0 }
{
    let mut end = 0;
    let mut line = 0;
    let mut begins_line = true;
    while end < text.len() {
        if begins_here(values, begins_line, &text[end..]) {
            return (end, line);
        }
        begins_line = text[end] == b'\n';
        line = line_behind(line, text[end]);
        end += 1;
    }
    (end, line)
}

/// The parts of an input. It takes no memory.
pub fn cut(text: &[u8]) -> Parts<'_>
    ensures program { result.program.now ≡ spec.program_part text.now }
    ensures values { result.values.now ≡ spec.values_part text.now }
    ensures schedule { result.schedule.now ≡ spec.schedule_part text.now }
    ensures values_line { result.values_line ≡ spec.values_line text.now }
    ensures schedule_line { result.schedule_line ≡ spec.schedule_line text.now }
    ensures counted { result.schedule_line + length result.schedule.now ≤ length text.now + 1 }
{
    let (end, feeds) = part_end(text, true);
    let (program, rest) = text.split_at(end);
    let (end, more) = part_end(rest, false);
    let (values, schedule) = rest.split_at(end);
    let values_line = 1 + feeds;
    Parts {
        program,
        values,
        schedule,
        values_line,
        schedule_line: values_line + more,
    }
}
