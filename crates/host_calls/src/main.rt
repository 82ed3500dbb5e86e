// Makes the host calls that no script can make, and writes one line for each with its result.
#![tactic(auto)]

mod carrying;
mod collecting;
mod host;
mod opening;
mod pages;
mod receiving;
mod spending;
mod words;

fn main(rt: HostRuntime) -> anyhow::Result<()> {
    opening::try_openings(&rt)?;
    pages::show_pages(&rt)?;
    carrying::count_places(&rt)?;
    carrying::post_and_fetch(&rt)?;
    carrying::deliver_malformed(&rt)?;
    receiving::receive_messages(&rt)?;
    collecting::collect_answers(&rt)
}
