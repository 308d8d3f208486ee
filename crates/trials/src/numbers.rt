// Sums that wrap, differences that stop at 0, and a choice.
ghost use Rattle.std.specs.Prelude.{◌≡◌, ◌+◌, ◌-◌, ◌%◌, ◌^◌, cond};

pub fn plus(a: usize, b: usize) -> usize
    ensures { result ≡ (a + b) % 2 ^ 64 }
{
    a.wrapping_add(b)
}

// One less, or 0.
pub fn less(n: usize) -> usize
    ensures { result ≡ n - 1 }
{
    n.saturating_sub(1)
}

pub fn pick<T: Copy>(yes: bool, x: T, y: T) -> T
    ensures { result ≡ cond yes x y }
{
    if yes { x } else { y }
}
