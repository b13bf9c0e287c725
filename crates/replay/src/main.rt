// Runs whole sessions of bench from the folder data/, and tells of each whether its output is the one that is stored there.
// NN.in is what bench reads and NN.out what it must print.
#![tactic(auto)]

ghost use Rattle.std.specs.Io.{ReadsAtMost};

use std::alloc::{AllocError, Global};
use std::fs::File;
use std::io;
use std::rt::Files;
use stream::reading::read_full;

// A file's name: two digits, and its ending.
fn name(alloc: Global, k: u8, ending: &str) -> Result<String, AllocError> {
    format!(in alloc; "{k:02}{ending}")
}

// Reads a file of data/ to the front of buf, and answers how many bytes it has; of a file that is missing, none.
fn read_file(
    rt: &(impl Files + AllocGlobal),
    k: u8,
    ending: &str,
    buf: &mut [u8],
) -> io::Result<usize>
    ensures { ReadsAtMost result buf.new }
{
    let path = name(rt.alloc(), k, ending)?;
    match File::open(rt, path) {
        Ok(mut file) => read_full(&mut file, buf),
        Err(_) => Ok(0),
    }
}

// A session that is missing is none that agrees. An output has twice the room of a stored one: where it is cut, it differs.
fn replay(rt: &(impl Files + AllocGlobal + Print), k: u8) -> io::Result<()> {
    let mut input = [0u8; 8192];
    let got = read_file(rt, k, ".in", &mut input)?;
    let mut output = [0u8; 32768];
    let length = session::run(&input[..got], &mut output);
    let mut stored = [0u8; 16384];
    let expected = read_file(rt, k, ".out", &mut stored)?;
    let same = 0 < got && output[..length] == stored[..expected];
    let told = if same { "same" } else { "DIFFERS" };
    println!(rt; "{k} {told}")
}

fn main(rt: HostRuntime) -> io::Result<()> {
    for k in 0..45 {
        replay(&rt, k)?;
    }
    Ok(())
}
