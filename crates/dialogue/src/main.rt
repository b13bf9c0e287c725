// A host talks to a device: one command of each row of the table, written, obeyed, and each message of the answer read back. Alerts are
// asked for, and `home` is sent once more, so that they come.
// Each line printed is the command's line as it was written, with a checksum every other time, and what the host understood.
#![tactic(auto)]

use command::Command::{OfAxes, OfDevice};
use command::{AxisCommand, AxisSetting, Command, DeviceCommand, DeviceSetting, Target};
use device::Device;
use host_reader::reading::field;
use host_reader::{Message, Said, State, Text};
use reply::{LONGEST_ANSWER, LONGEST_REPLY};
use std::{fmt, io};
use units::{Number, Position, Speed};

// What is sent, each for an axis, 0 for all. The last of the moves is beyond the travel.
const TALK: [(u64, Command); 25] = [
    (0, OfAxes(AxisCommand::Nothing)),
    (0, OfAxes(AxisCommand::Home)),
    (1, OfAxes(AxisCommand::MoveTo(Target::Abs(Position(10000))))),
    (2, OfAxes(AxisCommand::MoveTo(Target::Rel(Position(2500))))),
    (1, OfAxes(AxisCommand::MoveVel(Speed(-153600)))),
    (0, OfAxes(AxisCommand::MoveTo(Target::Min))),
    (0, OfAxes(AxisCommand::MoveTo(Target::Max))),
    (
        0,
        OfAxes(AxisCommand::StoreposAt(Number(16), Position(305381))),
    ),
    (0, OfAxes(AxisCommand::MoveTo(Target::Stored(Number(16))))),
    (0, OfAxes(AxisCommand::Stop)),
    (0, OfAxes(AxisCommand::Estop)),
    (
        1,
        OfAxes(AxisCommand::MoveTo(Target::Abs(Position(305382)))),
    ),
    (0, OfAxes(AxisCommand::Get(AxisSetting::MaxSpeed))),
    (2, OfAxes(AxisCommand::Set(AxisSetting::Pos, Number(777)))),
    (0, OfAxes(AxisCommand::Storepos(Number(16)))),
    (0, OfAxes(AxisCommand::StoreposCurrent(Number(1)))),
    (0, OfAxes(AxisCommand::Warnings)),
    (0, OfAxes(AxisCommand::WarningsClear)),
    (0, OfDevice(DeviceCommand::ParkingState)),
    (0, OfDevice(DeviceCommand::Park)),
    (0, OfDevice(DeviceCommand::Unpark)),
    (0, OfDevice(DeviceCommand::Echo)),
    (0, OfDevice(DeviceCommand::Help)),
    (
        0,
        OfDevice(DeviceCommand::Set(DeviceSetting::CommAlert, Number(1))),
    ),
    (0, OfAxes(AxisCommand::Home)),
];

// The warnings by their places from 1; none is 0.
const WARNINGS: [&str; 9] = ["--", "FD", "FQ", "FS", "FT", "FB", "FP", "FE", "WR"];

// A state as it is told.
#[derive(Clone, Copy)]
struct Shown(State);

impl fmt::Display for Shown {
    fn fmt<W: fmt::Write>(&self, f: &mut fmt::Formatter<W>) -> fmt::Result {
        let motion = if self.0.busy { "BUSY" } else { "IDLE" };
        let warning = WARNINGS.get(self.0.warning).copied().unwrap_or("");
        write!(f, "{motion}, {warning}")
    }
}

// What a message of each kind says. The text of a reply or an info line stands in the line.
fn say_said(rt: &impl Print, said: Said, line: &[u8]) -> io::Result<()> {
    match said {
        Said::Reply(ok, s, Text { place, length }) => {
            let verdict = if ok { "OK" } else { "RJ" };
            let state = Shown(s);
            print!(rt; ": {verdict}, {state}, data ")?;
            rt.write_all(field(line, place, length))
        }
        Said::Alert(s) => {
            let state = Shown(s);
            print!(rt; ": alert, {state}")
        }
        Said::Info(Text { place, length }) => {
            print!(rt; ": info, text ")?;
            rt.write_all(field(line, place, length))
        }
    }
}

fn say_message(rt: &impl Print, m: Message, line: &[u8]) -> io::Result<()> {
    print!(rt; " => address {}, axis {}", m.address, m.axis)?;
    say_said(rt, m.said, line)?;
    print!(rt; "\n")
}

fn say_read(rt: &impl Print, line: &[u8]) -> io::Result<()> {
    match host_reader::reading::read_message(line) {
        Some(m) => say_message(rt, m, line),
        None => print!(rt; " => no message\n"),
    }
}

// What is sent, message by message: each ends with its LF.
fn say_sent(rt: &impl Print, sent: &[u8]) -> io::Result<()> {
    let mut at: usize = 0;
    while at < sent.len() {
        let end = input::parts::part_end(sent, at);
        say_read(rt, &sent[at..end])?;
        at = end;
    }
    Ok(())
}

// The line goes to the device, and its answer comes back.
fn exchange(rt: &impl Print, d: Device, line: &[u8]) -> io::Result<Device> {
    let mut answer = [0u8; LONGEST_ANSWER];
    let a = carriage::step(d, line, &mut answer);
    rt.write_all(field(line, 0, line::framing::printable_len(line)))?;
    say_sent(rt, field(&answer, 0, a.length))?;
    Ok(a.next)
}

fn ask(rt: &impl Print, d: Device, axis: u64, c: Command, sum: bool) -> io::Result<Device> {
    let mut line = [0u8; 80];
    let written = host_writer::writing::write_command(
        &mut line,
        1,
        axis,
        c,
        b"both  axes are at rest",
        sum,
    );
    exchange(rt, d, field(&line, 0, written.unwrap_or(0)))
}

// A motor report; its alert comes by itself.
fn reported(rt: &impl Print, d: Device, axis: i32, kind: i32, last: i32) -> io::Result<Device> {
    let mut alert = [0u8; LONGEST_REPLY];
    let a = carriage::report(d, Number(axis), Number(kind), Number(last), &mut alert);
    say_sent(rt, field(&alert, 0, a.length))?;
    Ok(a.next)
}

// What the motors report behind a command: both axes are home behind `home`; axis 2 raises FQ behind the position that is stored.
fn motors(rt: &impl Print, d: Device, c: Command) -> io::Result<Device> {
    match c {
        OfAxes(AxisCommand::Home) => reported(rt, reported(rt, d, 1, 3, 0)?, 2, 3, 0),
        OfAxes(AxisCommand::StoreposCurrent(_)) => reported(rt, d, 2, 4, 2),
        _ => Ok(d),
    }
}

fn main(rt: HostRuntime) -> io::Result<()> {
    let fresh = Device::fresh(Number(1), 2, Number(100));
    let mut d = fresh.next;
    for (k, (axis, command)) in TALK.into_iter().enumerate() {
        let next = ask(&rt, d, axis, command, k % 2 == 1)?;
        d = motors(&rt, next, command)?;
    }
    Ok(())
}
