// Reads a script on standard input and writes what each of its records did on standard output.
#![tactic(auto)]

use session::run::run;
use std::io;
use std::io::BufWriter;

fn main(rt: HostRuntime) -> io::Result<()> {
    let mut output = BufWriter::new(rt.alloc(), rt.stdout())?;
    run(rt.alloc(), &mut rt.stdin(), &mut output)
}
