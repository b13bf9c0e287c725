// Several devices on one cable: a lent run of records, one line and a reply buffer in; each record that the line concerns is changed
// where it stands, and their answers stand one behind the other. specs/Chain.antt says what a line makes of all of it.
#![tactic(auto)]

ghost use Rattle.std.specs.Prelude.{◌≡◌, ◌*◌, ◌≤◌, length};
ghost use Rattle.laws.specs.Lists.{all};
ghost use Rattle.device.specs.Good.{good};
ghost use Rattle.carriage.specs.Step.{room_for};
ghost use Rattle.chain.specs.Chain.{longest_chain, Gives, refusal, chain};
ghost use Rattle.chain.specs.Walk.{heeds, obeyed, Fits, Took, Walked, read_for_all, begun, told};

use carriage::{respond, room_for};
use device::Device;
use laws::{Refusal, RefusedAt};
use line::Addressed;
use reply::LONGEST_REPLY;

// "up to 16"
pub const LONGEST_CHAIN: usize = 16;

// What is carried from one record to the next: what was read of the line, and the place behind the answers so far.
#[derive(Clone, Copy)]
struct Pass {
    read: Result<Addressed, RefusedAt>,
    place: usize,
}

// A record's turn: the next record, and what is carried on.
#[derive(Clone, Copy)]
struct Turn {
    device: Device,
    pass: Pass,
}

// What a line came to: accepted or refused, and the length of all answers together.
#[derive(Clone, Copy)]
pub struct Told {
    pub verdict: Result<(), Refusal>,
    pub length: usize,
}

// Is the line for this record?
fn heeds(d: Device, p: Pass) -> bool
    ensures { result ≡ heeds d p.read }
{
    p.read.is_ok_and(|x| carriage::concerns(d, x.address))
}

// The turn of a record that the line is for: its answer stands behind those before it.
fn take_turn(d: Device, line: &[u8], reply: &mut [u8], p: Pass) -> Turn
    requires { Fits p reply.old }
    ensures { Took (obeyed line.now d p reply.old) reply.new result }
{
    let a = respond(d, p.read, line, &mut reply[p.place..]);
    Turn {
        device: a.next,
        pass: Pass {
            read: p.read,
            place: p.place + a.length,
        },
    }
}

// 20, then 21, both before the line is read. How many records there are is asked first, so that the product fits its type.
fn refusal(n: usize, room: usize, good: bool) -> Result<(), Refusal>
    ensures { result ≡ refusal n room good }
{
    if LONGEST_CHAIN < n {
        return Err(Refusal::NoRoom);
    }
    if n == 0 {
        return Err(Refusal::NoRoom);
    }
    if room < LONGEST_REPLY * n {
        return Err(Refusal::NoRoom);
    }
    if good { Ok(()) } else { Err(Refusal::BadState) }
}

// As many bytes may the answers of n records to what was read take.
fn room_for_all(read: Result<Addressed, RefusedAt>, n: usize) -> usize
    requires { n ≤ longest_chain }
    ensures { result ≡ room_for read * n }
{
    room_for(read) * n
}

// What is read of a line for the whole chain, where there is room for every record's answer to it.
fn read_for_all(n: usize, room: usize, good: bool, line: &[u8]) -> Result<Addressed, RefusedAt>
    ensures { result ≡ read_for_all n room good line.now }
{
    if let Err(refused) = refusal(n, room, good) {
        return Err(refused.nowhere());
    }
    let read = line::reading::read_line(line, line::reading::open_line(line));
    if room < room_for_all(read, n) {
        return Err(Refusal::NoRoom.nowhere());
    }
    read
}

// What is read of it, and no answer so far.
fn begin(n: usize, room: usize, good: bool, line: &[u8]) -> Pass
    ensures { result ≡ begun n room good line.now }
{
    Pass {
        read: read_for_all(n, room, good, line),
        place: 0,
    }
}

// The line's own refusal; 5 where no record has answered.
fn finish(p: Pass) -> Told
    ensures { result ≡ told p.read p.place }
{
    let verdict = match p.read {
        Err(e) => Err(e.refusal),
        Ok(_) if p.place == 0 => Err(Refusal::NotMine),
        Ok(_) => Ok(()),
    };
    Told {
        verdict,
        length: p.place,
    }
}

// Is every record good?
fn all_good(devices: &[Device]) -> bool
    ensures { result ≡ all good devices.now }
{
    devices.iter().all(|d| d.good())
}

// Each record that the line is for takes its turn, and the next record is stored where it stood.
fn walk(devices: &mut [Device], line: &[u8], reply: &mut [u8], start: Pass) -> Pass
    requires { Fits start reply.old }
    ensures { Walked line.now start devices.old devices.new reply.old reply.new result }
{
    let mut p = start;
    for device in devices.iter_mut() {
        if heeds(*device, p) {
            let t = take_turn(*device, line, reply, p);
            *device = t.device;
            p = t.pass;
        }
    }
    p
}

// What a line makes of a chain of records and of a buffer.
pub fn chain(devices: &mut [Device], line: &[u8], reply: &mut [u8]) -> Told
    ensures { Gives (chain devices.old line.now (length reply.old)) reply.old result devices.new reply.new }
{
    let good = all_good(devices);
    let start = begin(devices.len(), reply.len(), good, line);
    let end = walk(devices, line, reply, start);
    finish(end)
}
