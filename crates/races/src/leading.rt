// A row made ready from the clocks alone, where records don't say all direct links: rows before it that happen before it are merged into it, the latest
// first, but for those that lead to one that was merged.
ghost use Rattle.std.specs.Prelude.{◌≡◌, ◌+◌, ◌*◌, ◌≤◌, ◌<◌, length, get_or};
ghost use Rattle.slices.specs.Slices.{zeros};
ghost use Rattle.clocks.specs.Rows.{merge_row};
ghost use Rattle.races.specs.loops.FilledClocks.{RowsIn};
ghost use Rattle.races.specs.loops.Leading.{kept_to, leads_in, lead_from, lead_down, raise_to, lead_in, MayLead};

use clocks::{clear_row, merge_row};
use slices::zeros;

// The entries of row t are kept apart.
fn keep_entries(clocks: &[u16], width: usize, t: usize, kept: &mut [u16])
    requires { (t * width + width ≤ length clocks.now) × (width ≤ 1024) × (kept.old ≡ zeros 1024) }
    ensures { kept.new ≡ kept_to width t clocks.now width }
{
    let a = t * width;
    let e = a + width;
    kept[..width].copy_from_slice(&clocks[a..e]);
}

// Whether row p happens before row t, by the entries kept, and does not lead to a row that was merged.
// The chains and the width apart: as fields of a struct they would be loaded anew for each row, since clocks are written.
fn leads_in(chosen: &[u16], width: usize, clocks: &[u16], kept: &[u16], t: usize, p: usize) -> bool
    requires { RowsIn chosen.now width clocks.now p t × (get_or chosen.now p 0 < length kept.now) }
    ensures { result ≡ leads_in chosen.now width kept.now t clocks.now p }
{
    let c = chosen[p] as usize;
    let own = clocks[p * width + c];
    own <= kept[c] && clocks[t * width + c] < own
}

// Not inlined, so that nothing of it is computed for the rows that are passed by.
#[inline(never)]
fn merge_in(clocks: &mut [u16], width: usize, chains: usize, p: u16, t: u16)
    ensures { clocks.new ≡ merge_row width chains p t clocks.old }
{
    merge_row(clocks, width, chains, p, t);
}

// Row p is merged into row t where it is such a one.
fn lead_from(
    chosen: &[u16],
    width: usize,
    chains: usize,
    clocks: &mut [u16],
    kept: &[u16],
    t: usize,
    p: usize,
)
    requires { MayLead chosen.now width clocks.old t × (p < t) × (1024 ≤ length kept.now) }
    ensures { clocks.new ≡ lead_from chosen.now width kept.now t chains p clocks.old }
{
    if leads_in(chosen, width, clocks, kept, t, p) {
        merge_in(clocks, width, chains, p as u16, t as u16);
    }
}

// All rows before row t, the last first.
fn lead_down(
    chosen: &[u16],
    width: usize,
    chains: usize,
    clocks: &mut [u16],
    kept: &[u16],
    t: usize,
)
    requires { MayLead chosen.now width clocks.old t × (1024 ≤ length kept.now) }
    ensures { clocks.new ≡ lead_down chosen.now width kept.now t chains t clocks.old }
{
    for p in (0..t).rev() {
        lead_from(chosen, width, chains, clocks, kept, t, p);
    }
}

// An entry becomes at least the value.
fn raise_to(clocks: &mut [u16], place: usize, value: u16)
    requires { place < length clocks.old }
    ensures { clocks.new ≡ raise_to place value clocks.old }
{
    clocks[place] = clocks[place].max(value);
}

// Row t anew, of the rows before it and its own entry. Not inlined, so that the entries kept stand in no frame of a call for a trace without sends.
#[inline(never)]
pub(crate) fn lead_in(chosen: &[u16], width: usize, chains: usize, clocks: &mut [u16], t: usize)
    requires { MayLead chosen.now width clocks.old t }
    ensures { clocks.new ≡ lead_in chosen.now width chains t clocks.old }
{
    let place = t * width + (chosen[t] as usize);
    let own = clocks[place];
    let mut kept = zeros::<u16, 1024>();
    keep_entries(clocks, width, t, &mut kept);
    clear_row(clocks, width, t as u16);
    lead_down(chosen, width, chains, clocks, &kept, t);
    raise_to(clocks, place, own);
}
