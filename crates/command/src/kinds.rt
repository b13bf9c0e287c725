// What is constant of a command: document 01's table of commands as data, one row a kind, looked up and not matched.
// specs/Commands.antt has the same table, with the words of each row.
ghost use Rattle.std.specs.Prelude.{◌≡◌};
ghost use Rattle.command.specs.Commands.{kind_at, demands_by, demands_of, is_words, is_info};

use crate::forms::Form;
use crate::{Command, Setting};

// Whether a command has to do with a setting: no, it reads it, or it writes it.
#[derive(Clone, Copy)]
pub enum Use {
    Apart,
    Gets,
    Sets,
}

// The data of a command's reply: 0, the values of its setting, the position stored under its number, the positions, the
// warnings, whether the device is parked, its words, or 0 with info lines behind the reply.
#[derive(Clone, Copy)]
pub enum Data {
    Nought,
    Values,
    Stored,
    Position,
    Active,
    Parked,
    Words,
    Info,
}

impl Data {
    // Are they the words of the command itself?
    pub fn words(self) -> bool
        ensures { result ≡ is_words self }
    {
        matches!(self, Data::Words)
    }

    // Do info lines stand behind the reply?
    pub fn informs(self) -> bool
        ensures { result ≡ is_info self }
    {
        matches!(self, Data::Info)
    }
}

// A row: what it has to do with a setting; whether only an unparked device takes it; whether it takes its axes at rest;
// whether it only shows, so that nothing is asked of an axis and nothing changed; the data of its reply.
#[derive(Clone, Copy)]
pub struct Kind {
    pub uses: Use,
    pub unparked: bool,
    pub rest: bool,
    pub shows: bool,
    pub reply: Data,
}

// What a command demands of the device and its axes, beside the values that it carries. `barred`: it sets what is read only.
#[derive(Clone, Copy)]
pub struct Demands {
    pub barred: bool,
    pub access: u8,
    pub unparked: bool,
    pub rest: bool,
    pub shows: bool,
    pub reply: Data,
}

// A row of which nothing is said; one that only an unparked device takes; one that only shows.
const PLAIN: Kind = Kind {
    uses: Use::Apart,
    unparked: false,
    rest: false,
    shows: false,
    reply: Data::Nought,
};

const UNPARKED: Kind = Kind {
    unparked: true,
    ..PLAIN
};

const SHOWS: Kind = Kind {
    shows: true,
    ..PLAIN
};

// The table, a row a kind. It is a static, since a const would be copied at each look-up.
static KINDS: [Kind; 22] = [
    // (none)
    SHOWS,
    // home
    PLAIN,
    // stop
    UNPARKED,
    // estop
    UNPARKED,
    // move abs N
    UNPARKED,
    // move rel N
    UNPARKED,
    // move vel N
    UNPARKED,
    // move min
    UNPARKED,
    // move max
    UNPARKED,
    // move stored N
    UNPARKED,
    // get SETTING
    Kind {
        uses: Use::Gets,
        reply: Data::Values,
        ..SHOWS
    },
    // set SETTING N
    Kind {
        uses: Use::Sets,
        ..PLAIN
    },
    // tools storepos N
    Kind {
        reply: Data::Stored,
        ..PLAIN
    },
    // tools storepos N P
    PLAIN,
    // tools storepos N current
    Kind {
        reply: Data::Position,
        ..PLAIN
    },
    // warnings
    Kind {
        reply: Data::Active,
        ..SHOWS
    },
    // warnings clear
    Kind {
        reply: Data::Active,
        ..PLAIN
    },
    // tools parking state
    Kind {
        reply: Data::Parked,
        ..SHOWS
    },
    // tools parking park
    Kind {
        rest: true,
        ..PLAIN
    },
    // tools parking unpark
    PLAIN,
    // tools echo WORDS
    Kind {
        reply: Data::Words,
        ..SHOWS
    },
    // help commands
    Kind {
        reply: Data::Info,
        ..SHOWS
    },
];

// The row at a place; beyond the table the first.
fn kind_at(row: usize) -> Kind
    ensures { result ≡ kind_at row }
{
    if row < 22 { KINDS[row] } else { KINDS[0] }
}

impl Kind {
    fn demands(self, barred: bool, access: u8, rest: bool) -> Demands
        ensures { result ≡ demands_by self barred access rest }
    {
        Demands {
            barred,
            access,
            unparked: self.unparked,
            rest,
            shows: self.shows,
            reply: self.reply,
        }
    }
}

impl Form {
    // What a command of this form demands.
    pub fn demands(self) -> Demands
        ensures { result ≡ demands_of self }
    {
        let k = kind_at(self.row);
        let s = self.setting;
        match k.uses {
            Use::Apart => k.demands(false, 1, k.rest),
            Use::Gets => k.demands(false, s.get_access(), k.rest),
            Use::Sets => k.demands(s.read_only(), s.set_access(), s.only_at_rest()),
        }
    }
}
