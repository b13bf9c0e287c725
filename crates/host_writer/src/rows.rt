// Writes the words of a command into a lent buffer, each behind a space: those of its row in the table of commands.
// specs/Rows.antt says how a row is read.
ghost use Rattle.std.specs.Prelude.{◌≡◌, List, ℕ};
ghost use Rattle.laws.proofs.Spaced.{trail};
ghost use Rattle.words.specs.Cutting.{cut};
ghost use Rattle.command.specs.Commands.{command_words};
ghost use Rattle.buffer.specs.Wrote.{Wrote};
ghost use Rattle.host_writer.specs.Rows.{words_for, filled_row, row_words};

use crate::names::{put_message, put_setting};
use buffer::{put_numbered, put_word};
use command::Command;
use command::forms::Form;

// Document 01's table of commands in its own notation and order; the first row is the one without words.
#[tactic(auto, unfolding(laws::specs::Text::text, laws::specs::Text::same, words::specs::Cutting::cut, words::specs::Cutting::is_space, words::specs::Cutting::no_space, words::specs::Cutting::grow_at, words::specs::Cutting::words_from, words::specs::Find::meaning_of, crate::specs::Rows::words_for, crate::specs::Rows::filled_row, crate::specs::Rows::row_words))]
fn row(k: usize) -> &'static [u8]
    ensures { (f : Form) (es : List (List ℕ)) → filled_row f es (cut result.now) ≡ row_words f es k }
{
    match k {
        1 => b"home",
        2 => b"stop",
        3 => b"estop",
        4 => b"move abs N",
        5 => b"move rel N",
        6 => b"move vel N",
        7 => b"move min",
        8 => b"move max",
        9 => b"move stored N",
        10 => b"get SETTING",
        11 => b"set SETTING N",
        12 => b"tools storepos N",
        13 => b"tools storepos N P",
        14 => b"tools storepos N current",
        15 => b"warnings",
        16 => b"warnings clear",
        17 => b"tools parking state",
        18 => b"tools parking park",
        19 => b"tools parking unpark",
        20 => b"tools echo WORDS",
        21 => b"help commands",
        _ => b"",
    }
}

// What stands at a place of a row: what the command carries for it, or the word itself.
fn put_place(buf: &mut [u8], at: usize, w: &[u8], f: Form, message: &[u8]) -> usize
    ensures { Wrote buf.old at (trail (words_for f (cut message.now) w.now)) buf.new result }
{
    let s = f.setting;
    match words::find_word(w, b"N P SETTING WORDS") {
        Some(0) => put_numbered(buf, at, b" ", f.first),
        Some(1) => put_numbered(buf, at, b" ", f.second),
        Some(2) => put_setting(buf, at, s),
        Some(3) => put_message(buf, at, message),
        _ => put_word(buf, at, w),
    }
}

// A row, place by place.
fn put_row(buf: &mut [u8], at: usize, row: &[u8], f: Form, message: &[u8]) -> usize
    ensures { Wrote buf.old at (trail (filled_row f (cut message.now) (cut row.now))) buf.new result }
{
    let mut next = at;
    let mut place: usize = 0;
    while place < row.len() {
        let w = words::first_word(row, place);
        if w.is_empty() {
            return next;
        }
        next = put_place(buf, next, w, f, message);
        place = words::past_word(row, place);
    }
    next
}

// Proved of the rows: filled for any command, they are those of command/specs/Commands.
pub fn put_command(buf: &mut [u8], at: usize, c: Command, message: &[u8]) -> usize
    ensures { Wrote buf.old at (trail (command_words c (cut message.now))) buf.new result }
{
    let f = c.form();
    put_row(buf, at, row(f.row), f, message)
}
