// Reads the line of a motor report, with spaces and numbers as in a command line: `R axis kind p`, or `R device axis kind p` for a chain.
// specs/ReportLines.antt says which lines are misspelt.
ghost use Rattle.std.specs.Prelude.{◌≡◌, drop};
ghost use Rattle.words.specs.Cutting.{cut, head_word, tail_words};
ghost use Rattle.input.specs.ReportLines.{framed_words, behind_r, number_said, numbers_of, three_of, read_report, at_place, read_placed};
ghost use Rattle.input.specs.ReportLines.{number_of, placed_number, line_refusal, placed_refusal};

use line::LONGEST_LINE;
use units::Number;
use words::Word;

// What a motor report says: the axis, the kind of the report, and its last number.
#[derive(Clone, Copy)]
pub struct MotorReport {
    pub axis: Number,
    pub kind: Number,
    pub last: Number,
}

// A motor report for the device at a place of a chain.
#[derive(Clone, Copy)]
pub struct PlacedReport {
    pub place: Number,
    pub report: MotorReport,
}

// What stands before a line's footer; nothing where the line is over 80 bytes or has no footer.
fn content(s: &[u8]) -> &[u8]
    ensures { cut result.now ≡ framed_words s.now }
{
    if LONGEST_LINE < s.len() {
        return &s[..0];
    }
    let end = line::framing::printable_len(s);
    if line::framing::is_footer(&s[end..]) {
        return &s[..end];
    }
    &s[..0]
}

// What stands behind the first word, which is `R`; nothing behind another.
fn behind_r(s: &[u8]) -> &[u8]
    ensures { cut result.now ≡ behind_r (framed_words s.now) }
{
    let b = content(s);
    let Word { start, end } = words::word_at(b, 0);
    if words::same_bytes(&b[start..end], b"R") {
        return &b[end..];
    }
    &b[..0]
}

// A word as a number, if it is one, and the place behind it.
#[derive(Clone, Copy)]
struct NumberAt {
    number: Option<Number>,
    end: usize,
}

// The first word from at on as a number: the words from behind it on are the others.
fn number_at(s: &[u8], at: usize) -> NumberAt
    ensures number { result.number ≡ number_said (head_word (cut (drop at s.now))) }
    ensures others { cut (drop result.end s.now) ≡ tail_words (cut (drop at s.now)) }
{
    let Word { start, end } = words::word_at(s, at);
    NumberAt {
        number: numbers::reading::read_number(&s[start..end]).ok(),
        end,
    }
}

// Three words as numbers: axis, kind, and the last one.
fn numbers(axis: Option<Number>, kind: Option<Number>, last: Option<Number>) -> Option<MotorReport>
    ensures { result ≡ numbers_of axis kind last }
{
    Some(MotorReport {
        axis: axis?,
        kind: kind?,
        last: last?,
    })
}

// The words from at on: just three, as numbers.
fn three_at(s: &[u8], at: usize) -> Option<MotorReport>
    ensures { result ≡ three_of (cut (drop at s.now)) }
{
    let axis = number_at(s, at);
    let kind = number_at(s, axis.end);
    let last = number_at(s, kind.end);
    if words::start_of(s, last.end) < s.len() {
        return None;
    }
    numbers(axis.number, kind.number, last.number)
}

// The line of a motor report; nothing where it is misspelt.
pub fn read_report(s: &[u8]) -> Option<MotorReport>
    ensures read { result ≡ read_report s.now }
    ensures number { number_of result ≡ line_refusal s.now }
{
    three_at(behind_r(s), 0)
}

// A word as a place of the chain, and what is reported of the device there.
fn at_place(device: Option<Number>, report: Option<MotorReport>) -> Option<PlacedReport>
    ensures { result ≡ at_place device report }
{
    Some(PlacedReport {
        place: device?,
        report: report?,
    })
}

// The line of a motor report for a place of a chain; nothing where it is misspelt.
pub fn read_placed(s: &[u8]) -> Option<PlacedReport>
    ensures read { result ≡ read_placed s.now }
    ensures number { placed_number result ≡ placed_refusal s.now }
{
    let b = behind_r(s);
    let NumberAt { number, end } = number_at(b, 0);
    at_place(number, three_at(b, end))
}
