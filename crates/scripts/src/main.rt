// Runs each script that its arguments name and writes their outputs one after another: many examples in one program.
#![tactic(auto)]

use session::run::run;
use std::env;
use std::fs::File;
use std::io::BufWriter;

fn main(rt: HostRuntime) -> anyhow::Result<()> {
    let mut output = BufWriter::new(rt.alloc(), rt.stdout())?;
    for name in env::args(&rt)?.skip(1) {
        let mut script = File::open(&rt, name.as_str())?;
        run(rt.alloc(), &mut script, &mut output)?;
    }
    Ok(())
}
