//! The range of equal keys among keys that do not fall.

ghost use Rattle.std.specs.Prelude.{◌≡◌, ◌≤◌, ◌<◌, length, nat_lt, if◌then◌else◌};
ghost use Rattle.std.specs.List.{AllWithin};
ghost use Rattle.std.specs.List.Sorted.{IsNonDecreasing};
ghost use Rattle.layer_names.specs.Runs.{IsKeyRun};

/// The range of a key: start and end, equal if it does not occur.
pub(crate) fn run_of(keys: &[u64], key: u64) -> (usize, usize)
    requires { IsNonDecreasing keys.now }
    ensures { IsKeyRun keys.now key result.0 result.1 }
{
    let low = first_from(keys, key);
    if low == keys.len() || keys[low] != key {
        return (low, low);
    }
    if low + 1 == keys.len() || keys[low + 1] != key {
        return (low, low + 1);
    }
    (low, keys.partition_point(|at| *at <= key))
}

/// The first place from which on no key is below this one. Its steps do not branch on the keys.
fn first_from(keys: &[u64], key: u64) -> usize
    requires { IsNonDecreasing keys.now }
    ensures bound { result ≤ length keys.now }
    ensures before { AllWithin (λ at. at < key) keys.now 0 result }
    ensures after { AllWithin (λ at. key ≤ at) keys.now result (length keys.now) }
{
    let mut base = 0;
    let mut size = keys.len();
    while size > 1 {
        let half = size / 2;
        base += if_less(keys[base + half], key, half);
        size -= half;
    }
    if size == 1 && keys[base] < key {
        base + 1
    } else {
        base
    }
}

/// `number` if `x` is less than `y`, otherwise 0. The borrow of a difference masks the number: the
/// compiler makes a branch of every comparison here, and no processor predicts it.
#[inline(always)]
fn if_less(x: u64, y: u64, number: usize) -> usize
    ensures { result ≡ (if nat_lt x y then number else 0) }
{
    let borrow = u128::from(x).wrapping_sub(u128::from(y)) >> 64;
    number & borrow as usize
}
