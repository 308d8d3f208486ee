// Numbers that look random and are the same in every run.
ghost use Rattle.std.specs.Prelude.{◌-◌, ◌≤◌};

fn mix(x: u64) -> u64 {
    let a = x ^ (x << 13);
    let b = a ^ (a >> 7);
    b ^ (b << 17)
}

// x below n, by its remainder.
fn below(x: u64, n: usize) -> usize
    ensures { result ≤ n - 1 }
{
    if n == 0 { 0 } else { (x as usize) % n }
}

// A number below n (0 for n = 0): one for each seed, place and purpose.
pub fn roll(seed: usize, place: usize, purpose: usize, n: usize) -> usize
    ensures { result ≤ n - 1 }
{
    let a = mix((seed as u64).wrapping_add(0x9E3779B97F4A7C15));
    let b = mix(mix(a.wrapping_add(place as u64)).wrapping_add(0x2545F4914F6CDD1D));
    let c = mix(mix(b.wrapping_add(purpose as u64)).wrapping_add(0xBF58476D1CE4E5B9));
    below(mix(c) >> 21, n)
}
