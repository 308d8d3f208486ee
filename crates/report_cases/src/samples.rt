// The samples, as files.
use crate::show;
use std::fs;

fn sample(rt: &HostRuntime, name: &str) -> std::io::Result<()> {
    show::title(name.as_bytes());
    let bytes = fs::read(rt, name)?;
    show::report(&bytes);
    Ok(())
}

pub(crate) fn each(rt: &HostRuntime) -> std::io::Result<()> {
    sample(rt, "t.trace")?;
    sample(rt, "setup-apart.trace")?;
    sample(rt, "setup-joined.trace")?;
    sample(rt, "repeated-reads.trace")?;
    sample(rt, "two-observations.trace")?;
    sample(rt, "radio-link.trace")?;
    sample(rt, "two-radio-links.trace")?;
    sample(rt, "radio-link-broken.trace")
}
