// What the program `cable` does with its input: a chain that is held by value, and one turn a part, a line or a motor report.
// specs/Held.antt says what a line makes of such a chain, specs/Cable.antt what is printed, for every input.
#![tactic(auto)]

ghost use Rattle.std.specs.Prelude.{◌≡◌, length};
ghost use Rattle.laws.specs.declared.Refusal.TheVariants.{BadReport};
ghost use Rattle.chain.specs.Chain.{chain as chainOf};
ghost use Rattle.input.specs.ReportLines.{read_placed};
ghost use Rattle.chain_session.specs.Held.{Hears, records_of};
ghost use Rattle.chain_session.specs.Cable.{outcome_at, outcome, Reports, report_turn, line_turn, turn as turn_of, Took, cable_start};

use chain::{LONGEST_CHAIN, Told, chain};
use device::Device;
use input::parts::{Turned, is_report, put_answer, put_reported};
use input::reports::{MotorReport, PlacedReport};
use laws::{Refusal, number_of};
use reply::{LONGEST_ANSWER, LONGEST_REPLY};
use units::Number;

// 96 bytes for the reply and for each info line of each record of the longest chain.
pub const MOST_ANSWERS: usize = 18432;

// Up to 16 records, one behind the other: the first `count` places.
#[derive(Clone, Copy)]
pub struct Cable {
    pub devices: [Device; LONGEST_CHAIN],
    pub count: usize,
}

// What a line or a report came to, and the chain afterwards.
#[derive(Clone, Copy)]
pub struct Heard {
    pub told: Told,
    pub next: Cable,
}

// What a line makes of a chain and of a buffer: the only code that lends records of its own.
pub fn hear(c: Cable, line: &[u8], reply: &mut [u8]) -> Heard
    ensures { Hears (chainOf (records_of c) line.now (length reply.old)) c reply.old reply.new result }
{
    let mut devices = c.devices;
    let count = c.count;
    let told = chain(&mut devices[..count.min(LONGEST_CHAIN)], line, reply);
    Heard {
        told,
        next: Cable { devices, count },
    }
}

// A report for no place of the chain, or for none at all.
fn missed(c: Cable) -> Heard
    ensures { result ≡ record { told = record { verdict = Err BadReport; length = 0 }; next = c } }
{
    let told = Told {
        verdict: Err(Refusal::BadReport),
        length: 0,
    };
    Heard { told, next: c }
}

// What a report makes of the record at a place of the chain, counted from 1, and of a buffer, in which its alert stands; 22 where there
// is no such place.
fn report_at(mut c: Cable, place: usize, report: MotorReport, alert: &mut [u8]) -> Heard
    ensures { Reports (outcome_at (records_of c) place report alert.old) c result alert.new }
{
    if place == 0 || c.count.min(LONGEST_CHAIN) < place {
        return missed(c);
    }
    let i = place - 1;
    let MotorReport { axis, kind, last } = report;
    let a = carriage::report(c.devices[i], axis, kind, last, alert);
    c.devices[i] = a.next;
    let told = Told {
        verdict: a.verdict,
        length: a.length,
    };
    Heard { told, next: c }
}

fn report(c: Cable, placed: Option<PlacedReport>, alert: &mut [u8]) -> Heard
    ensures { Reports (outcome (records_of c) placed alert.old) c result alert.new }
{
    match placed {
        Some(PlacedReport { place, report }) => report_at(c, place.place(), report, alert),
        None => missed(c),
    }
}

fn report_turn(c: Cable, part: &[u8], out: &mut [u8], at: usize) -> Turned<Cable>
    ensures { Took (report_turn (records_of c) (read_placed part.now)) c out.old at result out.new }
{
    let mut alert = [0; LONGEST_REPLY];
    let h = report(c, input::reports::read_placed(part), &mut alert);
    let told = h.told;
    let next = h.next;
    Turned {
        place: put_reported(out, at, number_of(told.verdict), told.length, &alert),
        next,
    }
}

fn line_turn(c: Cable, part: &[u8], out: &mut [u8], at: usize) -> Turned<Cable>
    ensures { Took (line_turn (records_of c) part.now) c out.old at result out.new }
{
    let mut answers = [0; MOST_ANSWERS];
    let room = LONGEST_ANSWER * c.count.min(LONGEST_CHAIN);
    let h = hear(c, part, &mut answers[..room]);
    let told = h.told;
    let next = h.next;
    Turned {
        place: put_answer(out, at, number_of(told.verdict), told.length, &answers),
        next,
    }
}

// What one part makes of a chain, and what it prints.
pub fn turn(c: Cable, part: &[u8], out: &mut [u8], at: usize) -> Turned<Cable>
    ensures { Took (turn_of (records_of c) part.now) c out.old at result out.new }
{
    if is_report(part) {
        report_turn(c, part, out, at)
    } else {
        line_turn(c, part, out, at)
    }
}

// The chain that cable begins with.
pub fn cable_start() -> Cable
    ensures { result ≡ cable_start }
{
    let first = Device::fresh(Number(1), 2, Number(100));
    let second = Device::fresh(Number(2), 1, Number(101));
    let third = Device::fresh(Number(1), 4, Number(102));
    let fourth = Device::fresh(Number(9), 3, Number(103));
    let a = first.next;
    let b = second.next;
    let c = third.next;
    let d = fourth.next;
    let mut devices = [a; LONGEST_CHAIN];
    devices[1] = b;
    devices[2] = c;
    devices[3] = d;
    Cable { devices, count: 4 }
}
