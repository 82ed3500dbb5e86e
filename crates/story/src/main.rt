// Tells a run of three stations in plain words: one crashes, one gets the boat, and one is turned away.
#![tactic(auto)]

mod acts;
mod crossing;
mod tale;
mod words;

use tale::Tale;

fn main(rt: HostRuntime) -> anyhow::Result<()> {
    let mut tale = Tale::open(&rt)?;
    tale.tell()?;
    Ok(())
}
