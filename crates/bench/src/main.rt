// The program bench: at most 4,096 bytes of standard input, part by part, and what each of them prints.
// All that it does is `session::run`; the output's room is enough for a part a byte.
#![tactic(auto)]

use std::io;
use stream::reading::read_full;

fn main(rt: HostRuntime) -> io::Result<()> {
    let mut input = [0u8; 4096];
    let got = read_full(&mut rt.stdin(), &mut input)?;
    let mut output = [0u8; 393216];
    let length = session::run(&input[..got], &mut output);
    rt.write_all(&output[..length])
}
