// Small functions over slices of numbers of any width, bytes among them, for any index and any count.
#![tactic(auto)]

ghost use Rattle.std.specs.Prelude.{◌≡◌, get_or, set};
ghost use Rattle.slices.specs.Slices.{filled, overwritten, two_bytes};

// A number type's zero.
pub trait Zero: Copy {
    ghost ZERO: { Self };

    const ZERO: Self;
}

impl Zero for u8 {
    ghost ZERO = { 0 };

    const ZERO: u8 = 0;
}

impl Zero for u16 {
    ghost ZERO = { 0 };

    const ZERO: u16 = 0;
}

impl Zero for u64 {
    ghost ZERO = { 0 };

    const ZERO: u64 = 0;
}

impl Zero for usize {
    ghost ZERO = { 0 };

    const ZERO: usize = 0;
}

// The element at a position; past the end 0.
pub fn get<T: Zero>(items: &[T], at: usize) -> T
    ensures { result ≡ get_or items.now at T.ZERO }
{
    if at < items.len() { items[at] } else { T::ZERO }
}

// Sets the element at a position; past the end nothing.
pub fn put<T: Copy>(items: &mut [T], at: usize, value: T)
    ensures { items.new ≡ set items.old at value }
{
    if at < items.len() {
        items[at] = value;
    }
}

// Zeros in that many elements from the first on, or in all of them where there are fewer.
pub fn clear<T: Zero>(items: &mut [T], count: usize)
    ensures { items.new ≡ overwritten T.ZERO count items.old }
{
    let n = count.min(items.len());
    for i in 0..n {
        items[i] = T::ZERO;
    }
}

// An array of zeros.
#[tactic(auto, unfolding(crate::specs::Slices::filled))]
pub fn zeros<T: Zero, const N: usize>() -> [T; N]
    ensures { result ≡ filled T.ZERO N }
{
    [T::ZERO; N]
}

// The two bytes from a position on as a number, low byte first; past the end they are 0.
pub fn two(bytes: &[u8], at: usize) -> u16
    ensures { result ≡ two_bytes bytes.now at }
{
    if bytes.len() <= at {
        return 0;
    }
    u16::from_le_bytes([bytes[at], get(bytes, at + 1)])
}
