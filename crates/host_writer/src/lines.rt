// Writes a command's line into a lent buffer, from its first place on.
// The rules are in specs/Writing.antt.
ghost use Rattle.buffer.specs.Wrote.{Wrote};
ghost use Rattle.host_writer.specs.Writing.{front_text, line_text};

use crate::rows::put_command;
use buffer::{put_byte, put_number, put_two};
use command::Command;
use reply::put_sum;

// Up to the command.
fn put_front(buf: &mut [u8], address: u64, axis: u64) -> usize
    ensures { Wrote buf.old 0 (front_text address axis) buf.new result }
{
    let a = put_byte(buf, 0, b'/');
    let b = put_two(buf, a, address);
    let c = put_byte(buf, b, b' ');
    put_number(buf, c, axis)
}

// The whole line, from the first place on.
pub fn put_line(
    buf: &mut [u8],
    address: u64,
    axis: u64,
    c: Command,
    message: &[u8],
    sum: bool,
) -> usize
    ensures { Wrote buf.old 0 (line_text address axis c message.now sum) buf.new result }
{
    let front = put_front(buf, address, axis);
    let at = put_command(buf, front, c, message);
    let end = put_sum(buf, at, sum);
    put_byte(buf, end, b'\n')
}
