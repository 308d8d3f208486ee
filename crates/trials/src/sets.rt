// Sets of numbers below 64: bit t is set where t is in the set.
ghost use Rattle.std.specs.Prelude.{◌≡◌, ◌&&◌, ◌/◌, ◌%◌, ◌^◌, ltb, eqb, cond};

// The set of t alone; of a t from 64 on none.
pub fn bit(t: usize) -> usize
    ensures { result ≡ cond (ltb t 64) (2 ^ t) 0 }
{
    if t < 64 { 1 << t } else { 0 }
}

pub fn is_in(set: usize, t: usize) -> bool
    ensures { result ≡ (ltb t 64 && eqb (set / 2 ^ t % 2) 1) }
{
    t < 64 && (set >> t) % 2 == 1
}
