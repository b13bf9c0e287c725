// The program console: answers standard input line by line as it arrives, and keeps the record from one line to the next.
// For a person at a terminal, or behind a serial line. Each part is answered as bench answers it, and where a line went wrong at
// one of its bytes, a caret stands under that byte: `session::show`.
#![tactic(auto)]

ghost use Rattle.std.specs.Prelude.{◌≡◌, ◌≤◌, length, take, IfOk};
ghost use Rattle.session.specs.Bench.{shown};

use device::Device;
use std::io;
use std::io::Read;

// A byte of the input, where there is one.
fn read_byte(input: &mut impl Read) -> io::Result<Option<u8>> {
    let mut next = [0u8; 1];
    let got = input.read(&mut next)?;
    Ok(next[..got].first().copied())
}

// How many bytes of a part are kept, and whether another part may follow.
#[derive(Clone, Copy)]
struct Part {
    kept: usize,
    more: bool,
}

// Reads up to the next LF, or the end of input, and keeps what buf has room for. A proved loop has to end, and nothing says that a
// part does: the loop goes over numbers that no run uses up.
fn read_part(input: &mut impl Read, buf: &mut [u8]) -> io::Result<Part>
    ensures within { IfOk result (λ part. part.kept ≤ length buf.new) }
    ensures front { IfOk result (λ part. part.kept ≡ length (take part.kept buf.new)) }
{
    let mut kept: usize = 0;
    for _ in 0..u64::MAX {
        let Some(byte) = read_byte(input)? else {
            return Ok(Part { kept, more: false });
        };
        kept = buffer::put_byte(buf, kept, byte);
        if byte == 10 {
            return Ok(Part { kept, more: true });
        }
    }
    Ok(Part { kept, more: false })
}

// Shows what a part makes of a record, and hands on the next one. What is shown of one part has at most 1,233 bytes. It is written at
// once: standard output keeps nothing back.
fn answer(rt: &impl Print, d: Device, part: &[u8]) -> io::Result<Device>
    ensures { IfOk result (λ next. next ≡ (shown d part.now).next) }
{
    let mut out = [0u8; 1233];
    let t = session::show(d, part, &mut out, 0);
    rt.write_all(&out[..t.place])?;
    Ok(t.next)
}

// One part, of which 81 bytes are kept, and the next record where another part may follow. Over 80 bytes a part is answered as its
// first 81 are (session/proofs/LongPart.antt).
fn serve(rt: &impl Print, input: &mut impl Read, d: Device) -> io::Result<Option<Device>> {
    let mut buf = [0u8; 81];
    let part = read_part(input, &mut buf)?;
    let next = if part.kept == 0 {
        d
    } else {
        answer(rt, d, &buf[..part.kept])?
    };
    Ok(part.more.then_some(next))
}

fn main(rt: HostRuntime) -> io::Result<()> {
    let mut d = session::bench_device();
    for _ in 0..u64::MAX {
        let Some(next) = serve(&rt, &mut rt.stdin(), d)? else {
            break;
        };
        d = next;
    }
    Ok(())
}
