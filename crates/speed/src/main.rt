// The speed program over the proved library: steps one record through one line many times. tools/speed runs it beside the plain
// one, whose file tools/plain/speed.c says what both read and write.
#![tactic(auto)]

use device::Device;
use input::reports::{MotorReport, read_report};
use reply::{LONGEST_ANSWER, LONGEST_REPLY};
use std::io;
use stream::reading::read_full;
use stream::sums::{Tally, added, added_bytes};
use units::Number;

// Axis k reached home at 0.
fn reached(d: Device, k: i32) -> Device {
    let mut alert = [0u8; LONGEST_REPLY];
    let a = carriage::report(d, Number(k), Number(3), Number(0), &mut alert);
    a.next
}

// All axes homed at 0, or the record as it is; a report beyond the count changes nothing.
fn homed(first: Device, home: bool, reply: &mut [u8]) -> Device {
    if !home {
        return first;
    }
    let a = carriage::step(first, b"/home\n", reply);
    let mut d = a.next;
    for k in 1..5 {
        d = reached(d, k);
    }
    d
}

// The sum of all numbers and lengths.
fn step_often(first: Device, line: &[u8], many: usize, reply: &mut [u8]) -> u64 {
    let mut d = first;
    let mut sum = 0;
    for _ in 0..many {
        let a = carriage::step(d, line, reply);
        sum = added(
            added(sum, u64::from(laws::number_of(a.verdict))),
            a.length as u64,
        );
        d = a.next;
    }
    sum
}

// The numbers of the report are how often the line is obeyed, how many axes there are, and 1 where these are homed first.
fn run(asked: MotorReport, line: &[u8]) -> Option<Tally> {
    let fresh = Device::fresh(Number(1), (asked.kind.place() % 256) as u8, Number(100));
    if fresh.verdict.is_err() {
        return None;
    }
    let mut reply = [0u8; LONGEST_ANSWER];
    let d = homed(fresh.next, asked.last.place() == 1, &mut reply);
    let many = asked.axis.place();
    let sum = step_often(d, line, many, &mut reply);
    Some(Tally {
        calls: many as u64,
        sum: added_bytes(sum, &reply),
    })
}

// The first 15 bytes are the report, and what stands behind them is the line.
fn tally(input: &[u8]) -> Option<Tally> {
    let (head, line) = input.split_at_checked(15)?;
    run(read_report(head)?, line)
}

fn main(rt: HostRuntime) -> io::Result<()> {
    let mut input = [0u8; 4096];
    let got = read_full(&mut rt.stdin(), &mut input)?;
    let done = tally(&input[..got]).unwrap_or_default();
    println!(rt; "{done}")
}
