// A line or a motor report, a record and a buffer in; number, length and next record out, and what is sent in the buffer.
// specs/Step.antt says what a line makes of a record, for every record, line and buffer, and specs/Report.antt what a report does.
#![tactic(auto)]

ghost use Rattle.std.specs.Prelude.{◌≡◌, cond, [], ◌++◌, ◌+◌, ◌≤◌, ◌<◌, length};
ghost use Rattle.buffer.specs.Wrote.{Wrote};
ghost use Rattle.reply.specs.Help.{help_text, longest_answer, longest_infos, info_lines};
ghost use Rattle.reply.specs.Reply.{longest_reply, joined, reply as reply_text, alert as alert_text, info};
ghost use Rattle.reply.specs.Told.{told_text, informs};
ghost use Rattle.carriage.specs.Report.{alert_wanted, report};
ghost use Rattle.carriage.specs.Step.{Gives, concerns, words_room, room_for, step, refused_at};
ghost use Rattle.carriage.specs.ReadOnce.{end_within, overheard, respond_to};
ghost use Rattle.carriage.specs.Rulings.{foreign, roomy, heard, heading_of, rule_words, rule};

use crate::effects::next;
use axis::reports::Report;
use command::Command;
use command::kinds::Demands;
use device::Device;
use laws::{Refusal, RefusedAt};
use line::{Addressed, Opening};
use phrase::Worded;
use reply::help::HELP_TEXTS;
use reply::told::{Told, put_told};
use reply::{Head, LONGEST_ANSWER, LONGEST_REPLY, put_end, put_head};
use units::Number;

// As many bytes of words as every reply has room for.
const MOST_WORDS: usize = 74;

// The answer to a line: accepted or refused, the reply's length, and the next record.
#[derive(Clone, Copy)]
pub struct Answer {
    pub verdict: Result<(), Refusal>,
    pub length: usize,
    pub next: Device,
}

// What a line comes to, before anything is written: a silence; a rejection, with its axis; or a command that meets no refusal,
// with its axis, the places in the line between which the words stand that it carries, and what it demands.
#[derive(Clone, Copy)]
pub enum Ruling {
    Silent(Refusal),
    Rejected(u64, Refusal),
    Accepted(u64, usize, usize, Command, Demands),
}

// What a reply has of its record besides the data: the head, and whether a checksum is wanted.
#[derive(Clone, Copy)]
pub struct Heading {
    pub head: Head,
    pub sum: bool,
}

fn heading_of(d: Device, k: u64, ok: bool) -> Heading
    ensures { result ≡ heading_of d k ok }
{
    Heading {
        head: view::head(d, k, ok),
        sum: d.comm.checksum.place() == 1,
    }
}

// Is the line sent to one device, which is another?
fn foreign(own: u64, o: Result<Opening, RefusedAt>) -> bool
    ensures { result ≡ foreign own o }
{
    matches!(o, Ok(Opening::To(a, _, _)) if a != 0 && a != own)
}

// How many bytes the answer to a command's words may take: a reply's, and each info line's.
fn words_room(w: Result<Worded, RefusedAt>) -> usize
    ensures { result ≡ words_room w }
{
    match w {
        Ok(x) if x.command.form().demands().reply.informs() => LONGEST_ANSWER,
        _ => LONGEST_REPLY,
    }
}

// And the answer to what was read.
pub fn room_for(r: Result<Addressed, RefusedAt>) -> usize
    ensures { result ≡ room_for r }
{
    match r {
        Err(_) => LONGEST_REPLY,
        Ok(x) => words_room(x.words),
    }
}

// What was read, where there is room for the answer to it. A buffer with room for every answer is asked for first, since then nothing
// is looked up.
fn with_room(r: Result<Addressed, RefusedAt>, room: usize) -> Result<Addressed, RefusedAt>
    ensures { result ≡ roomy room r }
{
    if LONGEST_ANSWER <= room {
        return r;
    }
    if room < room_for(r) {
        return Err(Refusal::NoRoom.nowhere());
    }
    r
}

// What a device of this address hears of a line: no more than its address, where that is another's and there is room for every answer.
fn hear(own: u64, good: bool, line: &[u8], room: usize) -> Result<Addressed, RefusedAt>
    ensures { result ≡ heard own good line.now room }
{
    if room < LONGEST_REPLY {
        return Err(Refusal::NoRoom.nowhere());
    }
    if !good {
        return Err(Refusal::BadState.nowhere());
    }
    let o = line::reading::open_line(line);
    if (LONGEST_ANSWER <= room) & foreign(own, o) {
        return Err(Refusal::NotMine.nowhere());
    }
    with_room(line::reading::read_line(line, o), room)
}

// Is it sent to all, or to this device?
#[tactic(auto, unfolding(crate::specs::Step::concerns))]
pub fn concerns(d: Device, address: u64) -> bool
    ensures { result ≡ concerns d address }
{
    address == 0 || address == d.comm.address.place() as u64
}

// The reader's refusal, or the first that its command meets.
fn rule_words(d: Device, k: u64, end: usize, w: Result<Worded, RefusedAt>) -> Ruling
    ensures { result ≡ rule_words d k end w }
{
    match w {
        Err(e) => Ruling::Rejected(k, e.refusal),
        Ok(x) => {
            let ruled = rules::refusals::rule(d, k, x.command);
            match ruled.verdict {
                Ok(()) => Ruling::Accepted(k, x.from, end, x.command, ruled.demands),
                Err(n) => Ruling::Rejected(k, n),
            }
        }
    }
}

// The place in a line that goes with this device's refusal of it, counted from 0 at the `/`; 255 where it has none.
pub fn refused_at(d: Device, line: &[u8]) -> u8
    ensures { result ≡ refused_at d line.now }
{
    let own = d.comm.address.place() as u64;
    line::place_read(hear(own, d.good(), line, LONGEST_ANSWER))
}

// What was read comes to this for the record.
pub fn rule(d: Device, r: Result<Addressed, RefusedAt>) -> Ruling
    ensures { result ≡ rule d r }
{
    match r {
        Err(e) => Ruling::Silent(e.refusal),
        Ok(x) => {
            if concerns(d, x.address) {
                rule_words(d, x.axis, x.end, x.words)
            } else {
                Ruling::Silent(Refusal::NotMine)
            }
        }
    }
}

// A reply: what it tells may stand in the line.
fn put_reply(h: Heading, x: Told, line: &[u8], reply: &mut [u8]) -> usize
    requires { (longest_reply ≤ length reply.old) × (h.head.axis < 10) × (length (told_text line.now x) ≤ 74) }
    ensures { Wrote reply.old 0 (reply_text h.head h.sum (told_text line.now x)) reply.new result }
{
    let data = put_head(reply, 0, h.head);
    let end = put_told(reply, data, x, line);
    put_end(reply, end, h.sum)
}

// The info line of a place of the texts, from a place of the buffer on.
fn put_info(buf: &mut [u8], at: usize, address: u64, sum: bool, place: usize) -> usize
    requires { at + longest_reply ≤ length buf.old }
    ensures { Wrote buf.old at (info address 0 sum (help_text place)) buf.new result }
{
    let line = &mut buf[at..];
    let end = reply::put_info(line, 0, address, place);
    at + put_end(line, end, sum)
}

// All info lines, one behind the other.
fn put_infos(buf: &mut [u8], at: usize, address: u64, sum: bool) -> usize
    requires { at + longest_infos ≤ length buf.old }
    ensures { Wrote buf.old at (joined (info_lines address sum)) buf.new result }
{
    let mut next = at;
    for place in 0..HELP_TEXTS {
        next = put_info(buf, next, address, sum, place);
    }
    next
}

// The reply to an accepted command, and the info lines behind it.
fn put_answer(h: Heading, x: Told, line: &[u8], reply: &mut [u8]) -> usize
    requires { (cond (informs x) longest_answer longest_reply ≤ length reply.old) × (h.head.axis < 10) × (length (told_text line.now x) ≤ 74) }
    ensures { Wrote reply.old 0 (reply_text h.head h.sum (told_text line.now x) ++ cond (informs x) (joined (info_lines h.head.address h.sum)) []) reply.new result }
{
    let end = put_reply(h, x, line, reply);
    if x.informs() {
        put_infos(reply, end, h.head.address, h.sum)
    } else {
        end
    }
}

// What a line makes of a record and a buffer. What a reply tells is taken from the record before it changes. The record changes
// where it stands and is given back at one place: each other way to write this copies it once more.
pub fn step(mut d: Device, line: &[u8], reply: &mut [u8]) -> Answer
    ensures { Gives (step d line.now reply.old) result reply.new }
{
    let good = d.good();
    let own = d.comm.address.place() as u64;
    let mut verdict = Ok(());
    let mut length: usize = 0;
    match rule(d, hear(own, good, line, reply.len())) {
        Ruling::Silent(n) => {
            verdict = Err(n);
        }
        Ruling::Rejected(k, n) => {
            verdict = Err(n);
            length = put_reply(heading_of(d, k, false), Told::Name(n), line, reply);
        }
        Ruling::Accepted(k, from, end, c, x) => {
            let shown = x.reply;
            let told = view::data::told(d, k, c.form(), shown, from, end);
            if !x.shows {
                d = next(d, k, c);
            }
            length = put_answer(heading_of(d, k, true), told, line, reply);
        }
    }
    Answer {
        verdict,
        length,
        next: d,
    }
}

// What a device hears of what was read: 20 or 21 where there is no room for a reply, or its record is not good.
fn overhear(
    good: bool,
    read: Result<Addressed, RefusedAt>,
    rest: usize,
) -> Result<Addressed, RefusedAt>
    ensures { result ≡ overheard good read rest }
{
    if rest < LONGEST_REPLY {
        return Err(Refusal::NoRoom.nowhere());
    }
    if good {
        with_room(read, rest)
    } else {
        Err(Refusal::BadState.nowhere())
    }
}

// The end of words that begin at `from`: no more of them are looked at than a reply has room for.
fn end_within(from: usize, end: usize) -> usize
    ensures { result ≡ end_within from end }
{
    end.min(from.saturating_add(MOST_WORDS))
}

// What was read of a line makes of a record and a buffer, as `step` does: for a line that is read once for several records.
pub fn respond(
    mut d: Device,
    r: Result<Addressed, RefusedAt>,
    line: &[u8],
    reply: &mut [u8],
) -> Answer
    ensures { Gives (respond_to d line.now r reply.old) result reply.new }
{
    let good = d.good();
    let mut verdict = Ok(());
    let mut length: usize = 0;
    match rule(d, overhear(good, r, reply.len())) {
        Ruling::Silent(n) => {
            verdict = Err(n);
        }
        Ruling::Rejected(k, refusal) => {
            verdict = Err(refusal);
            length = put_reply(heading_of(d, k, false), Told::Name(refusal), line, reply);
        }
        Ruling::Accepted(k, from, end, c, x) => {
            let shown = x.reply;
            let told = view::data::told(d, k, c.form(), shown, from, end_within(from, end));
            if !x.shows {
                d = next(d, k, c);
            }
            length = put_answer(heading_of(d, k, true), told, line, reply);
        }
    }
    Answer {
        verdict,
        length,
        next: d,
    }
}

// An alert of the record and axis that the heading is of.
fn put_alert(h: Heading, alert: &mut [u8]) -> usize
    requires { (longest_reply ≤ length alert.old) × (h.head.axis < 10) }
    ensures { Wrote alert.old 0 (alert_text h.head h.sum) alert.new result }
{
    let end = reply::put_alert(alert, 0, h.head);
    put_end(alert, end, h.sum)
}

// Is an alert due for a report that came to this, where comm.alert is so?
fn alert_wanted(verdict: Result<(), Refusal>, r: Report, alert: Number) -> bool
    ensures { result ≡ alert_wanted verdict r alert }
{
    verdict.is_ok() & axis::reports::rests(r) & (alert.place() == 1)
}

// What a motor report makes of a record and of a buffer, in which its alert stands, if one is due.
pub fn report(d: Device, axis: Number, kind: Number, last: Number, alert: &mut [u8]) -> Answer
    ensures { Gives (report d axis kind last alert.old) result alert.new }
{
    if alert.len() < LONGEST_REPLY {
        return Answer {
            verdict: Err(Refusal::NoRoom),
            length: 0,
            next: d,
        };
    }
    let r = axis::reports::report_of(kind, last);
    let o = rules::reports::report(d, axis, r);
    let length = if alert_wanted(o.verdict, r, o.next.comm.alert) {
        put_alert(heading_of(o.next, axis.place() as u64, true), alert)
    } else {
        0
    };
    Answer {
        verdict: o.verdict,
        length,
        next: o.next,
    }
}

mod effects;
