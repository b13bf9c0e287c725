// What a message of a device says, as types, and what its texts may hold. The code that reads a message stands in
// reading.rt. The spelling is in specs/Spelling.antt, and proofs/Messages.antt shows that just that is read.
#![tactic(auto)]

ghost use Rattle.std.specs.Prelude.{◌≡◌};
ghost use Rattle.laws.specs.Lists.{all};
ghost use Rattle.host_reader.specs.Reading.{data_byte};

// Where what a kind has of its own begins: behind mark, address and axis.
const FRONT_END: usize = 5;

// Where the data of a reply begin, and the text of an info line that is not empty.
const DATA_PLACE: usize = 17;

const TEXT_PLACE: usize = 6;

// Where an alert has said all.
const ALERT_END: usize = 13;

// Where a text stands in the line: from which byte on, and how many.
#[derive(Clone, Copy)]
pub struct Text {
    pub place: usize,
    pub length: usize,
}

// BUSY or not, and the warning by its place from 1, 0 for `--`.
#[derive(Clone, Copy)]
pub struct State {
    pub busy: bool,
    pub warning: usize,
}

// What a message says for its axis. A reply: OK or not, the state, the data.
#[derive(Clone, Copy)]
pub enum Said {
    Reply(bool, State, Text),
    Alert(State),
    Info(Text),
}

#[derive(Clone, Copy)]
pub struct Message {
    pub address: u64,
    pub axis: u64,
    pub said: Said,
}

// The kinds of messages, each with a mark of its own.
#[derive(Clone, Copy)]
enum Kind {
    Reply,
    Alert,
    Info,
}

// What stands in front of every message: its mark, which tells the kind, address and axis.
#[derive(Clone, Copy)]
struct Front {
    kind: Kind,
    address: u64,
    axis: u64,
}

pub(crate) fn data_byte(c: u8) -> bool
    ensures { result ≡ data_byte c }
{
    (32 <= c) & (c <= 126) & (c != b':')
}

// Can every byte of s stand in a text?
pub fn all_data(s: &[u8]) -> bool
    ensures { result ≡ all data_byte s.now }
{
    s.iter().all(|c| data_byte(*c))
}

pub mod reading;
