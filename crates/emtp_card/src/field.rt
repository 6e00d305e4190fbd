//! The text of a field: the bytes of its columns, without the outer blanks.

ghost use Rattle.std.specs.Prelude.{◌≡◌, ◌+◌, ◌-◌, ◌≤◌, ◌↔◌, [], length, take, drop};
ghost use Rattle.emtp_card.specs.Field.{byte_in, columns, field_of, trimmed, without_leading, without_trailing};
ghost use Rattle.emtp_card.specs.held.Field.{IsBlank};

/// The text in the columns from `first` to `last`, counted from 1, without its outer blanks. It is
/// empty exactly where these columns are blank; columns past the line's end are.
pub fn field_text(line: &[u8], first: usize, last: usize) -> &[u8]
    requires first { 1 ≤ first }
    requires order { first ≤ last }
    requires last { last ≤ 80 }
    ensures value { result.now ≡ field_of line.now first last }
    ensures blank { (result.now ≡ []) ↔ IsBlank (columns line.now first last) }
    ensures short { length result.now + first ≤ last + 1 }
{
    trim(columns(line, first, last))
}

/// The byte in a column, counted from 1; a column past the line's end is blank.
pub fn byte_at(line: &[u8], column: usize) -> u8
    requires { 1 ≤ column }
    ensures { result ≡ byte_in line.now column }
{
    match line.get(column - 1) {
        Some(byte) => *byte,
        None => b' ',
    }
}

/// The bytes that a line has in its columns from `first` to `last`: fewer where the line ends before.
pub fn columns(line: &[u8], first: usize, last: usize) -> &[u8]
    requires first { 1 ≤ first }
    requires order { first ≤ last }
    ensures { result.now ≡ take (last + 1 - first) (drop (first - 1) line.now) }
{
    let end = last.min(line.len());
    let start = (first - 1).min(end);
    &line[start..end]
}

/// A text without its outer blanks; only the byte 0x20 is one.
#[tactic(auto, unfolding(crate::specs::Field::trimmed))]
pub fn trim(text: &[u8]) -> &[u8]
    ensures value { result.now ≡ trimmed text.now }
    ensures short { length result.now ≤ length text.now }
{
    trim_start(trim_end(text))
}

fn trim_start(text: &[u8]) -> &[u8]
    ensures value { result.now ≡ without_leading text.now }
    ensures short { length result.now ≤ length text.now }
{
    let mut rest = text;
    while let [b' ', after @ ..] = rest {
        rest = after;
    }
    rest
}

fn trim_end(text: &[u8]) -> &[u8]
    ensures value { result.now ≡ without_trailing text.now }
    ensures short { length result.now ≤ length text.now }
{
    let mut end = text.len();
    while end > 0 && text[end - 1] == b' ' {
        end -= 1;
    }
    &text[..end]
}
