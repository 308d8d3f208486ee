// The whole report, for inputs of each sort. A case's name, then the text; of a long one its length, its Adler-32 checksum, its first line and its last.
#![tactic(auto)]

mod bounds;
mod draft;
mod longest;
mod refusals;
mod samples;
mod show;

fn main(rt: HostRuntime) -> std::io::Result<()> {
    samples::each(&rt)?;
    bounds::short();
    bounds::sizes();
    refusals::each();
    bounds::chains();
    longest::texts();
    Ok(())
}
