// The lines of a file.
ghost use Rattle.std.specs.Prelude.{◌≡◌, ◌≤◌, ◌<◌, ◌+◌, ℕ, length, drop, IfSome, None, slice_range};
ghost use Rattle.std.specs.List.{prefix_len};
ghost use Rattle.tib_lex.specs.Lines.{not_feed};
ghost use Rattle.tib_lex.specs.NextLine.{IsNextLine};
ghost use Rattle.tib_lex.specs.Limits.{most_bytes};

/// A line of a file: its number, where its bytes begin and end, and where the next line begins.
#[derive(Clone, Copy, Debug, PartialEq, Eq)]
pub struct Line {
    pub number: u32,
    pub start: u32,
    pub end: u32,
    pub next: u32,
}

fn is_not_feed(byte: u8) -> bool
    ensures { result ≡ not_feed byte }
{
    byte != b'\n'
}

// How many bytes the first line has.
fn line_length(bytes: &[u8]) -> usize
    ensures count { result ≡ prefix_len not_feed bytes.now }
    ensures within { result ≤ length bytes.now }
{
    let mut count = 0;
    while count < bytes.len() && is_not_feed(bytes[count]) {
        count += 1;
    }
    count
}

fn line_from(bytes: &[u8], number: u32, at: u32) -> Line
    requires place { at < length bytes.now }
    requires short { length bytes.now ≤ most_bytes }
    ensures { IsNextLine bytes.now number at result }
{
    let end = at + line_length(&bytes[at as usize..]) as u32;
    let next = if (end as usize) < bytes.len() {
        end + 1
    } else {
        end
    };
    Line {
        number,
        start: at,
        end,
        next,
    }
}

/// The line that begins at byte `at`, under the number that the caller gives. `None` at the end of
/// the file. Takes no memory. Worst case: O(n) steps for the n bytes of the line.
pub fn next_line(bytes: &[u8], number: u32, at: u32) -> Option<Line>
    requires place { at ≤ length bytes.now }
    requires short { length bytes.now ≤ most_bytes }
    ensures line { IfSome result (λ line. IsNextLine bytes.now number at line) }
    ensures more { IfSome result (λ line. at < length bytes.now) }
    ensures none { result ≡ None → at ≡ length bytes.now }
{
    if at as usize == bytes.len() {
        return None;
    }
    Some(line_from(bytes, number, at))
}

/// The bytes of a line. Takes no memory.
pub fn line_bytes(bytes: &[u8], line: Line) -> &[u8]
    requires order { line.start ≤ line.end }
    requires within { line.end ≤ length bytes.now }
    ensures { result.now ≡ slice_range bytes.now line.start line.end }
{
    &bytes[line.start as usize..line.end as usize]
}
