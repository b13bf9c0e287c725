// What a reply tells behind its head, as a small value, and its writer: who writes it need not know the record.
// specs/Told.antt says the text of each.
ghost use Rattle.std.specs.Prelude.{◌≡◌};
ghost use Rattle.buffer.specs.Wrote.{Wrote};
ghost use Rattle.reply.specs.Data.{values};
ghost use Rattle.reply.specs.Told.{listed_of, carried as carried_of, told_text, informs as informsOf};

use crate::data::{put_echo, put_refusal, put_warnings};
use buffer::{put_byte, put_signed};
use laws::Refusal;
use units::Number;

// The values of the axes that are listed: `many` of the four, from the place `from` on.
#[derive(Clone, Copy)]
pub struct Listed {
    pub from: usize,
    pub many: usize,
    pub values: [Number; 4],
}

// 0; one value; the values of axes; the warnings of a mask; whether the device is parked; the words that stand in the line
// from a place to another; the name of a refusal; 0, with info lines behind the reply.
#[derive(Clone, Copy)]
pub enum Told {
    Nought,
    One(Number),
    Values(Listed),
    Active(u32),
    Parked(bool),
    Words(usize, usize),
    Name(Refusal),
    Info,
}

impl Told {
    // Do info lines stand behind the reply?
    pub fn informs(self) -> bool
        ensures { result ≡ informsOf self }
    {
        match self {
            Told::Info => true,
            _ => false,
        }
    }
}

impl Listed {
    // Those that are listed.
    fn listed(&self) -> &[Number]
        ensures { result.now ≡ listed_of self.now }
    {
        let rest = self.values.get(self.from..).unwrap_or(&[]);
        rest.get(..self.many).unwrap_or(rest)
    }
}

// Values with single spaces between.
fn put_values(buf: &mut [u8], at: usize, ns: &[Number]) -> usize
    ensures { Wrote buf.old at (values ns.now) buf.new result }
{
    let mut next = at;
    for (i, n) in ns.iter().enumerate() {
        if 0 < i {
            next = put_byte(buf, next, b' ');
        }
        next = put_signed(buf, next, *n);
    }
    next
}

fn carried(line: &[u8], from: usize, end: usize) -> &[u8]
    ensures { result.now ≡ carried_of line.now from end }
{
    let stop = end.min(line.len());
    &line[from.min(stop)..stop]
}

// What is told; the words of an echo stand in the line.
#[tactic(auto, using(crate::proofs::Telling::parked_is), unfolding(laws::specs::Text::text))]
pub fn put_told(buf: &mut [u8], at: usize, x: Told, line: &[u8]) -> usize
    ensures { Wrote buf.old at (told_text line.now x) buf.new result }
{
    match x {
        Told::Nought => put_byte(buf, at, b'0'),
        Told::One(n) => put_signed(buf, at, n),
        Told::Values(v) => put_values(buf, at, v.listed()),
        Told::Active(m) => put_warnings(buf, at, m),
        Told::Parked(p) => put_byte(buf, at, b'0' + p as u8),
        Told::Words(from, end) => put_echo(buf, at, carried(line, from, end), 0),
        Told::Name(n) => put_refusal(buf, at, n),
        Told::Info => put_byte(buf, at, b'0'),
    }
}
