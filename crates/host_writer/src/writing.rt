// The host's command writer: a command's line into a lent buffer, or a refusal that writes nothing.
// The rules are in specs/Writing.antt; roundtrip/proofs/ReadsBack.antt shows that the device reads the line as the same command.
ghost use Rattle.std.specs.Prelude.{◌≡◌};
ghost use Rattle.host_writer.specs.Writing.{unfit, unspellable, outcome, write_line};

use crate::lines::put_line;
use buffer::put_text;
use command::Command;
use laws::Refusal;
use line::LONGEST_LINE;
use numbers::HIGHEST_ADDRESS;

// The highest address, as wide as addresses are here.
const HIGHEST: u64 = HIGHEST_ADDRESS as u64;

fn is_unfit(c: Command, message: &[u8]) -> bool
    ensures { result ≡ unfit c message.now }
{
    let d = c.form().demands();
    let reply = d.reply;
    let words = reply.words();
    let plain = host_reader::all_data(message);
    d.barred | (words & !plain)
}

#[tactic(auto, unfolding(crate::specs::Writing::unspellable))]
fn is_unspellable(address: u64, axis: u64, c: Command, message: &[u8]) -> bool
    ensures { result ≡ unspellable address axis c message.now }
{
    (HIGHEST < address) | (9 < axis) | is_unfit(c, message)
}

// The line is written into one byte more than the longest first: where it ends beyond that length, it is too long, and the lent buffer
// is still as it was. So no length is computed besides.
pub fn write_command(
    buf: &mut [u8],
    address: u64,
    axis: u64,
    c: Command,
    message: &[u8],
    sum: bool,
) -> Result<usize, Refusal>
    ensures { outcome result buf.new ≡ write_line address axis c message.now sum buf.old }
{
    if buf.len() < LONGEST_LINE {
        return Err(Refusal::NoRoom);
    }
    if is_unspellable(address, axis, c, message) {
        return Err(Refusal::BadData);
    }
    let mut line = [0; LONGEST_LINE + 1];
    let end = put_line(&mut line, address, axis, c, message, sum);
    if LONGEST_LINE < end {
        return Err(Refusal::TooLong);
    }
    Ok(put_text(buf, 0, &line[..end]))
}
