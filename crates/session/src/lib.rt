// What the program `bench` does with its input: one turn a part, a line or a motor report, and the whole run.
// specs/Bench.antt says what is printed, for every input.
#![tactic(auto)]

ghost use Rattle.std.specs.Prelude.{◌≡◌};
ghost use Rattle.buffer.specs.Wrote.{Wrote};
ghost use Rattle.carriage.specs.Step.{Gives};
ghost use Rattle.input.specs.Parts.{parts as parts_of};
ghost use Rattle.input.specs.ReportLines.{read_report};
ghost use Rattle.session.specs.Bench.{Took, report_answer, report_turn, line_turn, turn as turn_of, shown, turns as turnsOf, bench, bench_device as benchDeviceOf};

use carriage::Answer;
use device::Device;
use input::parts::{Turned, is_report, put_answer, put_caret, put_reported};
use input::reports::MotorReport;
use laws::{Refusal, number_of};
use reply::{LONGEST_ANSWER, LONGEST_REPLY};
use units::Number;

// "reads at most 4,096 bytes of standard input"
pub const LONGEST_INPUT: usize = 4096;

// What a report makes of a record; 22 where it is misspelt.
fn report_answer(d: Device, report: Option<MotorReport>, alert: &mut [u8]) -> Answer
    ensures { Gives (report_answer d report alert.old) result alert.new }
{
    match report {
        Some(MotorReport { axis, kind, last }) => carriage::report(d, axis, kind, last, alert),
        None => Answer {
            verdict: Err(Refusal::BadReport),
            length: 0,
            next: d,
        },
    }
}

fn report_turn(d: Device, part: &[u8], out: &mut [u8], at: usize) -> Turned<Device>
    ensures { Took (report_turn d (read_report part.now)) out.old at result out.new }
{
    let mut alert = [0; LONGEST_REPLY];
    let a = report_answer(d, input::reports::read_report(part), &mut alert);
    let next = a.next;
    Turned {
        place: put_reported(out, at, number_of(a.verdict), a.length, &alert),
        next,
    }
}

fn line_turn(d: Device, part: &[u8], out: &mut [u8], at: usize) -> Turned<Device>
    ensures { Took (line_turn d part.now) out.old at result out.new }
{
    let mut reply = [0; LONGEST_ANSWER];
    let a = carriage::step(d, part, &mut reply);
    let next = a.next;
    Turned {
        place: put_answer(out, at, number_of(a.verdict), a.length, &reply),
        next,
    }
}

// What one part makes of a record, and what it prints.
pub fn turn(d: Device, part: &[u8], out: &mut [u8], at: usize) -> Turned<Device>
    ensures { Took (turn_of d part.now) out.old at result out.new }
{
    if is_report(part) {
        report_turn(d, part, out, at)
    } else {
        line_turn(d, part, out, at)
    }
}

// What one part makes of a record, and what it shows to a person: where it went wrong, and what bench prints.
pub fn show(d: Device, part: &[u8], out: &mut [u8], at: usize) -> Turned<Device>
    ensures { Took (shown d part.now) out.old at result out.new }
{
    let place = put_caret(out, at, carriage::refused_at(d, part));
    turn(d, part, out, place)
}

// The record that bench begins with.
pub fn bench_device() -> Device
    ensures { result ≡ benchDeviceOf }
{
    let fresh = Device::fresh(Number(1), 2, Number(100));
    fresh.next
}

// The parts of an input, from a record on.
fn run_parts(first: Device, input: &[u8], out: &mut [u8]) -> usize
    ensures { Wrote out.old 0 (turnsOf first (parts_of input.now)) out.new result }
{
    let mut d = first;
    let mut place: usize = 0;
    for part in input.split_inclusive(|byte| *byte == b'\n') {
        let t = turn(d, part, out, place);
        d = t.next;
        place = t.place;
    }
    place
}

// A whole run: what standard input makes bench print. Of a longer input the first 4,096 bytes count.
pub fn run(input: &[u8], out: &mut [u8]) -> usize
    ensures { Wrote out.old 0 (bench input.now) out.new result }
{
    let n = LONGEST_INPUT.min(input.len());
    run_parts(bench_device(), &input[..n], out)
}
