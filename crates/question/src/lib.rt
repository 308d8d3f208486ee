// The order question.
#![tactic(auto)]

mod ask;
mod chains;
mod from_table;

ghost use Rattle.std.specs.Prelude.{◌≡◌, ◌≤◌};
ghost use Rattle.std.specs.Option.{option_copied};
ghost use Rattle.trace.specs.Paper.{paper};
ghost use Rattle.trace.specs.Reading.{read_reply};
ghost use Rattle.order.specs.loops.TablePass.{TellsLinks};
ghost use Rattle.question.specs.Question.{order_paper, order_reply};

use clocks::Relation;
use links::no_bits;
use records::{EventId, Trace, access};
use slices::zeros;
use trace::Refusal;

// The order question over a trace whose reading is at hand, and the table of what happens before what, where there is one.
fn ask_read(
    bytes: &[u8],
    reading: Result<Trace, Refusal>,
    width: usize,
    clocks: &[u16],
    t: EventId,
    u: EventId,
    table: Option<&[u64]>,
) -> Result<Relation, Refusal>
    requires { (paper reading ≡ read_reply bytes.now) × TellsLinks bytes.now (option_copied table) }
    ensures { order_paper result ≡ order_reply bytes.now width clocks.now t.0 u.0 }
{
    let read = reading?;
    ask::ask(
        access::records(bytes, read),
        read.events,
        width,
        clocks,
        t,
        u,
        table,
    )
}

// The same for a trace with sends, read here, with a table of its own. Not inlined, so that the table stands in no frame of a call for a trace without
// sends.
#[inline(never)]
fn ask_linked(
    bytes: &[u8],
    width: usize,
    clocks: &[u16],
    t: EventId,
    u: EventId,
) -> Result<Relation, Refusal>
    ensures { order_paper result ≡ order_reply bytes.now width clocks.now t.0 u.0 }
{
    let mut ranks = zeros::<u16, 1025>();
    let mut table = no_bits();
    let reading = trace::read_linked(bytes, &mut ranks, &mut table);
    ask_read(bytes, reading, width, clocks, t, u, Some(&table))
}

// The order question: over clocks that filling left, which of the events' actions happens before the other; over any others, the comparison of their rows.
pub fn ask_order(
    bytes: &[u8],
    width: usize,
    clocks: &[u16],
    t: EventId,
    u: EventId,
) -> Result<Relation, Refusal>
    ensures { order_paper result ≡ order_reply bytes.now width clocks.now t.0 u.0 }
{
    let first = trace::read_plain(bytes);
    if first.sends {
        return ask_linked(bytes, width, clocks, t, u);
    }
    let reading = first.reading;
    ask_read(bytes, reading, width, clocks, t, u, None)
}
