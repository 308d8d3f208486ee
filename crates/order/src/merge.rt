// Clock rows in the lent clocks: row u at width w is the part that starts at u × w.
ghost use Rattle.std.specs.Prelude.{◌≡◌, false, ℕ, ◌+◌, ◌-◌, ◌*◌, ◌≤◌, ◌<◌, length, get_or, set};
ghost use Rattle.order.specs.Chains.{first_from};
ghost use Rattle.order.specs.loops.Pass.{full_at, choose_in, NoneFull, RoomToChoose};

// Is one of the sixteen entries from `at` on equal to the size beside it?
fn among_sixteen(clocks: &[u16], at: usize, sizes: &[u16], c: usize) -> bool
    requires { (at + 16 ≤ length clocks.now) × (c + 16 ≤ length sizes.now) }
    ensures { result ≡ false → (j : ℕ) → j < 16 → get_or clocks.now (at + j) 0 ≡ get_or sizes.now (c + j) 0 → ⊥ }
{
    let mut hit: u16 = 0;
    for j in 0..16 {
        if clocks[at + j] == sizes[c + j] {
            hit = 1;
        }
    }
    hit == 1
}

// From chain `from` on, entry by entry.
fn choose_near(clocks: &[u16], a: usize, sizes: &[u16], from: usize, chains: usize) -> usize
    requires { (from ≤ chains) × (a + chains ≤ length clocks.now) × (chains ≤ length sizes.now) }
    ensures { result ≡ first_from (full_at a clocks.now sizes.now) from (chains - from) }
{
    for c in from..chains {
        if clocks[a + c] == sizes[c] {
            return c;
        }
    }
    chains
}

// The lowest chain all of whose members are in the merged row u, or a new one, where none below `from` is such; sixteen entries at a time.
pub(crate) fn choose(
    clocks: &[u16],
    width: usize,
    u: usize,
    sizes: &[u16],
    from: usize,
    chains: usize,
) -> usize
    requires { RoomToChoose width u clocks.now sizes.now chains × (from ≤ chains) × NoneFull (u * width) clocks.now sizes.now from }
    ensures { result ≡ choose_in width u clocks.now sizes.now chains }
{
    let a = u * width;
    let mut c = from;
    while c + 16 <= chains {
        if among_sixteen(clocks, a + c, sizes, c) {
            return choose_near(clocks, a, sizes, c, chains);
        }
        c += 16;
    }
    choose_near(clocks, a, sizes, c, chains)
}
