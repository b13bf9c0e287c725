// The texts of `help commands`, in their order: a command that is added has its first word at the end.
// specs/Help.antt says them.
ghost use Rattle.std.specs.Prelude.{◌≡◌};
ghost use Rattle.laws.proofs.Spaced.{trail};
ghost use Rattle.buffer.specs.Wrote.{Wrote};
ghost use Rattle.reply.specs.Help.{help_text};
ghost use Rattle.reply.specs.Reply.{text_words};

use buffer::put_word;

// `help commands` has as many info lines.
pub const HELP_TEXTS: usize = 11;

// The text at a place from 0, behind a space; nothing where there are not so many.
#[tactic(auto, unfolding(laws::specs::Text::text, laws::proofs::Spaced::trail, crate::specs::Help::help_texts))]
pub(crate) fn put_help(buf: &mut [u8], at: usize, place: usize) -> usize
    ensures { Wrote buf.old at (trail (text_words (help_text place))) buf.new result }
{
    match place {
        0 => put_word(buf, at, b"home"),
        1 => put_word(buf, at, b"stop"),
        2 => put_word(buf, at, b"estop"),
        3 => put_word(buf, at, b"move"),
        4 => put_word(buf, at, b"get"),
        5 => put_word(buf, at, b"set"),
        6 => put_word(buf, at, b"tools storepos"),
        7 => put_word(buf, at, b"warnings"),
        8 => put_word(buf, at, b"tools parking"),
        9 => put_word(buf, at, b"tools echo"),
        10 => put_word(buf, at, b"help commands"),
        _ => at,
    }
}
