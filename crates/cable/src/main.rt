// The program cable: at most 4,096 bytes of standard input, part by part, for a chain of four devices.
// What each part prints is `chain_session::turn`.
#![tactic(auto)]

ghost use Rattle.std.specs.Prelude.{◌≡◌, IfOk};
ghost use Rattle.chain_session.specs.Held.{records_of, holding};
ghost use Rattle.chain_session.specs.Cable.{turn as turn_of};

use chain_session::Cable;
use std::io;
use stream::reading::read_full;

// Prints what a part makes of the chain, and hands on the next one. The answers to one part have at most 96 bytes for the reply and for
// each info line of each record.
fn answer(rt: &impl Print, c: Cable, part: &[u8]) -> io::Result<Cable>
    ensures { IfOk result (λ next. next ≡ holding c (turn_of (records_of c) part.now).next) }
{
    let mut out = [0u8; 4608];
    let t = chain_session::turn(c, part, &mut out, 0);
    rt.write_all(&out[..t.place])?;
    Ok(t.next)
}

fn answer_each(rt: &impl Print, first: Cable, input: &[u8]) -> io::Result<()> {
    let mut c = first;
    let mut at: usize = 0;
    while at < input.len() {
        let end = input::parts::part_end(input, at);
        c = answer(rt, c, &input[at..end])?;
        at = end;
    }
    Ok(())
}

fn main(rt: HostRuntime) -> io::Result<()> {
    let mut input = [0u8; 4096];
    let got = read_full(&mut rt.stdin(), &mut input)?;
    answer_each(&rt, chain_session::cable_start(), &input[..got])
}
