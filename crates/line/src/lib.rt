// What a line is, as types. The code that reads a line stands in framing.rt and reading.rt.
// The spelling is in specs/Spelling.antt, and proofs/Demand3.antt shows that just that is read.
#![tactic(auto)]

ghost use Rattle.std.specs.Prelude.{◌≡◌};
ghost use Rattle.line.specs.Reading.{place_read};

use laws::RefusedAt;
use phrase::Worded;

// "at most 80 bytes in all"
pub const LONGEST_LINE: usize = 80;

// A line whose frame and address are read, and no more of it: no address, and the place where its content ends; or an address, the
// place behind it, and the place where its content ends.
#[derive(Clone, Copy)]
pub enum Opening {
    Bare(usize),
    To(u64, usize, usize),
}

// A line that is read as far as an address: an axis, the place where its content ends, and what the command's words come to.
#[derive(Clone, Copy)]
pub struct Addressed {
    pub address: u64,
    pub axis: u64,
    pub end: usize,
    pub words: Result<Worded, RefusedAt>,
}

// The place that is told with a refusal, counted from 0 at the `/`; 255 where there is none.
pub fn place_read(read: Result<Addressed, RefusedAt>) -> u8
    ensures { result ≡ place_read read }
{
    match read {
        Err(e) => e.place,
        Ok(x) => phrase::place_told(x.words),
    }
}

pub mod framing;
pub mod reading;
