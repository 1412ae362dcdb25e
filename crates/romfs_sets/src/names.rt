//! Names in their order, and the classes of their numbers.

ghost use Rattle.std.specs.Prelude.{◌≡◌, ◌+◌, ◌<◌, ◌≤◌, ◌^◌, ℕ, List, Option, IfOk, MatchOption, false, length};
ghost use Rattle.romfs_sets.specs.Names.{mixed, name_hash, numbered_cmp, HoldTheShared, AreInNameOrder, AreNumbersBelow, AreClasses, AreNamesApart};

use byteorder::{BigEndian, ByteOrder};
use std::alloc::{AllocError, Allocator};
use std::cmp::Ordering;

/// A name, and the number that has it.
#[derive(Clone, Copy)]
pub struct NumberedName<'a> {
    /// The hash of the name's bytes ([`hash_of`]).
    pub hash: u64,
    /// The name.
    pub name: &'a [u8],
    /// The number that has the name.
    pub number: u32,
}

/// The hash of a name: its first eight and its last eight bytes mixed, or those of a shorter name.
pub fn hash_of(name: &[u8]) -> u64
    ensures { result ≡ name_hash name.now }
{
    let len = name.len();
    if 8 <= len {
        mix(
            BigEndian::read_u64(name),
            BigEndian::read_u64(&name[len - 8..]),
        )
    } else if 0 < len {
        let all = BigEndian::read_uint(name, len);
        mix(all, all)
    } else {
        0
    }
}

/// The classes of the numbers below this one by their names, each a number, with one more for none;
/// None only if no two of them have the same name.
///
/// The name of a single number may be left out, and a number may be given twice: then there may be
/// classes though all names differ. `AllocError` only if memory was refused.
pub fn classes<'a, A: Allocator + Copy>(
    alloc: A,
    named: Vec<NumberedName<'a>, A>,
    count: usize,
) -> Result<Option<Vec<u32, A>>, AllocError>
    requires few { count < 2 ^ 32 }
    requires named { (name : ℕ → Option (List ℕ)) × HoldTheShared name count named.items }
    ensures { IfOk result (λ classes. (name : ℕ → Option (List ℕ))
        → HoldTheShared name count named.entry.items
        → MatchOption classes (AreNamesApart name count)
        (λ some. AreClasses name count some.items)) }
{
    let named = sorted(named);
    if !has_alike(&named) {
        return Ok(None);
    }
    Ok(Some(classes_in_order(alloc, &named, count)?))
}

// Two numbers, mixed to one.
fn mix(first: u64, last: u64) -> u64
    ensures { result ≡ mixed first last }
{
    first.wrapping_mul(0x9e37_79b9_7f4a_7c15).wrapping_add(last)
}

// The order of names by hash, and by all bytes if hashes are equal.
fn order(x: &NumberedName<'_>, y: &NumberedName<'_>) -> Ordering
    ensures { result ≡ numbered_cmp x.now y.now }
{
    match x.hash.cmp(&y.hash) {
        Ordering::Equal => x.name.cmp(y.name),
        other => other,
    }
}

// Names in their order.
fn sorted<'a, A: Allocator>(named: Vec<NumberedName<'a>, A>) -> Vec<NumberedName<'a>, A>
    ensures { (name : ℕ → Option (List ℕ)) (n : ℕ) → HoldTheShared name n named.entry.items
        → AreInNameOrder name n result.items }
{
    let mut named = named;
    named.sort_unstable_by(|x, y| order(x, y));
    named
}

// Whether two adjacent names are equal.
fn has_alike(named: &[NumberedName<'_>]) -> bool
    ensures { result ≡ false → (name : ℕ → Option (List ℕ)) (n : ℕ)
        → AreInNameOrder name n named.now → AreNamesApart name n }
{
    for at in 1..named.len() {
        if order(&named[at - 1], &named[at]).is_eq() {
            return true;
        }
    }
    false
}

// The numbers below this one.
fn numbers_below<A: Allocator>(alloc: A, end: usize) -> Result<Vec<u32, A>, AllocError>
    requires { end ≤ 2 ^ 32 }
    ensures { IfOk result (λ numbers. AreNumbersBelow end numbers.items) }
{
    let mut numbers = Vec::with_capacity(alloc, end)?;
    for number in 0..end {
        numbers.push(number as u32)?;
    }
    Ok(numbers)
}

// The classes of the numbers below this one and of one more, from names in their order.
fn classes_in_order<A: Allocator + Copy>(
    alloc: A,
    named: &Vec<NumberedName<'_>, A>,
    count: usize,
) -> Result<Vec<u32, A>, AllocError>
    requires few { count < 2 ^ 32 }
    requires named { (name : ℕ → Option (List ℕ)) × AreInNameOrder name count named.now.items }
    ensures { IfOk result (λ classes. (name : ℕ → Option (List ℕ))
        → AreInNameOrder name count named.now.items → AreClasses name count classes.items) }
{
    let mut classes = numbers_below(alloc, count + 1)?;
    for i in 1..named.len() {
        let (before, it) = (&named[i - 1], &named[i]);
        if order(before, it).is_eq() {
            classes[it.number as usize] = classes[before.number as usize];
        }
    }
    Ok(classes)
}
