// The speed program for chains over the proved library: one line goes through a chain many times. tools/speed runs it beside the
// plain one, whose file tools/plain/chain_speed.c says what both read and write.
#![tactic(auto)]

use chain::LONGEST_CHAIN;
use chain_session::Cable;
use device::Device;
use input::reports::{MotorReport, read_report};
use reply::LONGEST_REPLY;
use std::{array, io};
use stream::reading::read_full;
use stream::sums::{Tally, added, added_bytes};
use units::Number;

fn number_of(n: usize) -> Number {
    Number::from((n % 256) as u8)
}

// The fresh record at a place of the chain, counted from 0.
fn fresh_at(i: usize) -> Device {
    let address = number_of(i % 256 + 1);
    let id = number_of(i % 256 + 100);
    let fresh = Device::fresh(address, 2, id);
    fresh.next
}

fn fresh_chain(count: usize) -> Cable {
    Cable {
        devices: array::from_fn(fresh_at),
        count,
    }
}

// Axes 1 and 2 reached home at 0.
fn reached(d: Device) -> Device {
    let mut alert = [0u8; LONGEST_REPLY];
    let o = carriage::report(d, Number(1), Number(3), Number(0), &mut alert);
    let first = o.next;
    let p = carriage::report(first, Number(2), Number(3), Number(0), &mut alert);
    p.next
}

// All axes of the chain homed at 0, or the chain as it is.
fn homed(c: Cable, home: bool, reply: &mut [u8]) -> Cable {
    if !home {
        return c;
    }
    let h = chain_session::hear(c, b"/home\n", reply);
    Cable {
        devices: h.next.devices.map(reached),
        count: h.next.count,
    }
}

// The sum of all numbers and lengths.
fn hear_often(first: Cable, line: &[u8], many: usize, reply: &mut [u8]) -> u64 {
    let mut c = first;
    let mut sum = 0;
    for _ in 0..many {
        let h = chain_session::hear(c, line, reply);
        let told = h.told;
        sum = added(
            added(sum, u64::from(laws::number_of(told.verdict))),
            told.length as u64,
        );
        c = h.next;
    }
    sum
}

// The numbers of the report are how often the line is heard, how long the chain is, and 1 where its axes are homed first.
fn run(asked: MotorReport, line: &[u8]) -> Option<Tally> {
    let count = asked.kind.place();
    if count == 0 || LONGEST_CHAIN < count {
        return None;
    }
    let mut reply = [0u8; chain_session::MOST_ANSWERS];
    let c = homed(fresh_chain(count), asked.last.place() == 1, &mut reply);
    let many = asked.axis.place();
    let sum = hear_often(c, line, many, &mut reply);
    Some(Tally {
        calls: many as u64,
        sum: added_bytes(sum, &reply),
    })
}

// The first 16 bytes are the report, and what stands behind them is the line.
fn tally(input: &[u8]) -> Option<Tally> {
    let (head, line) = input.split_at_checked(16)?;
    run(read_report(head)?, line)
}

fn main(rt: HostRuntime) -> io::Result<()> {
    let mut input = [0u8; 4096];
    let got = read_full(&mut rt.stdin(), &mut input)?;
    let done = tally(&input[..got]).unwrap_or_default();
    println!(rt; "{done}")
}
