// A set of event actions in lent bytes, one bit for each: bit t % 8 of byte t ÷ 8 is event action t, in begin order.
#![tactic(auto)]

ghost use Rattle.std.specs.Prelude.{◌≡◌};
ghost use Rattle.members.specs.Members.{member, with_member, bytes_for, ones, counted};

// The bytes whose ones a usize surely holds.
const MOST: usize = 1152921504606846976;

// Is event action t in the set? Past the bytes it is not.
#[tactic(auto, unfolding(crate::specs::Members::member, bits::specs::Words::bit_at))]
pub fn has(work: &[u8], t: usize) -> bool
    ensures { result ≡ member work.now t }
{
    (slices::get(work, t / 8) >> (t % 8)) % 2 == 1
}

// Event action t enters the set; past the bytes nothing.
pub fn add(work: &mut [u8], t: usize)
    ensures { work.new ≡ with_member t work.old }
{
    let at = t / 8;
    if at < work.len() {
        work[at] |= 1 << (t % 8);
    }
}

// The bytes that a set of that many event actions takes.
#[tactic(auto, unfolding(crate::specs::Members::bytes_for))]
pub fn bytes_for(events: usize) -> usize
    ensures { result ≡ bytes_for events }
{
    events.div_ceil(8)
}

// The ones of the first n bytes, or of all where there are fewer.
pub fn count(work: &[u8], n: usize) -> usize
    ensures { result ≡ ones work.now (counted n) }
{
    let end = n.min(MOST).min(work.len());
    let mut total: usize = 0;
    for byte in &work[..end] {
        total += byte.count_ones() as usize;
    }
    total
}
