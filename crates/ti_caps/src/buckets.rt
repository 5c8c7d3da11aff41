//! Finding a capability by name: the table's names in buckets, by a number computed from their
//! bytes.

ghost use Rattle.std.specs.Prelude.{◌≡◌, ◌<◌, [], option_map, slice_index_or};
ghost use Rattle.ti_caps.specs.Buckets.{bucket_number, found_at, found_in};
ghost use Rattle.ti_caps.specs.Table.{capability_of};

use crate::table::{Kind, Slot, run_at};

/// An address that no name has: there is no such run.
const NONE: (u8, u8) = (8, 0);

/// For each bucket number the addresses of its names: the index of a name's run, and its index in
/// the run.
static BUCKETS: [[(u8, u8); 6]; 128] = [
    [(2, 28), (4, 35), (7, 5), NONE, NONE, NONE],
    [(2, 4), (2, 33), (2, 36), (7, 6), NONE, NONE],
    [(0, 1), (0, 18), (1, 18), (7, 7), NONE, NONE],
    [(4, 40), (7, 8), (7, 49), NONE, NONE, NONE],
    [(2, 46), (6, 15), (7, 50), NONE, NONE, NONE],
    [(6, 2), (7, 51), NONE, NONE, NONE, NONE],
    [(4, 27), (7, 52), NONE, NONE, NONE, NONE],
    [(0, 4), (1, 30), (2, 16), (4, 2), NONE, NONE],
    [(3, 2), (4, 18), (4, 26), NONE, NONE, NONE],
    [(2, 0), NONE, NONE, NONE, NONE, NONE],
    [(6, 16), NONE, NONE, NONE, NONE, NONE],
    [(1, 14), (2, 31), NONE, NONE, NONE, NONE],
    [(2, 3), NONE, NONE, NONE, NONE, NONE],
    [(1, 20), (2, 43), (4, 23), (4, 48), NONE, NONE],
    [(1, 13), (3, 31), NONE, NONE, NONE, NONE],
    [(4, 45), (5, 2), NONE, NONE, NONE, NONE],
    [(1, 17), (2, 26), NONE, NONE, NONE, NONE],
    [(0, 25), (1, 31), (6, 0), NONE, NONE, NONE],
    [(1, 5), (2, 45), NONE, NONE, NONE, NONE],
    [(3, 4), (4, 25), NONE, NONE, NONE, NONE],
    [(0, 8), (6, 23), NONE, NONE, NONE, NONE],
    [(0, 11), NONE, NONE, NONE, NONE, NONE],
    [(0, 12), (3, 30), NONE, NONE, NONE, NONE],
    [NONE, NONE, NONE, NONE, NONE, NONE],
    [(1, 23), (2, 21), NONE, NONE, NONE, NONE],
    [(1, 8), (5, 18), (7, 29), NONE, NONE, NONE],
    [(2, 35), (7, 30), NONE, NONE, NONE, NONE],
    [(2, 15), (7, 31), NONE, NONE, NONE, NONE],
    [(4, 46), (7, 32), NONE, NONE, NONE, NONE],
    [(3, 23), (7, 33), NONE, NONE, NONE, NONE],
    [(0, 16), (3, 28), (7, 34), NONE, NONE, NONE],
    [(4, 42), (7, 35), NONE, NONE, NONE, NONE],
    [(4, 16), (4, 41), (6, 20), (7, 36), NONE, NONE],
    [(0, 20), (0, 36), (2, 48), (7, 37), NONE, NONE],
    [(2, 49), (7, 38), NONE, NONE, NONE, NONE],
    [(2, 17), (2, 50), (2, 51), NONE, NONE, NONE],
    [(2, 37), NONE, NONE, NONE, NONE, NONE],
    [(0, 19), (2, 32), NONE, NONE, NONE, NONE],
    [(0, 23), (2, 38), (5, 17), NONE, NONE, NONE],
    [(2, 1), (2, 9), NONE, NONE, NONE, NONE],
    [NONE, NONE, NONE, NONE, NONE, NONE],
    [(0, 14), (4, 20), NONE, NONE, NONE, NONE],
    [(6, 12), NONE, NONE, NONE, NONE, NONE],
    [(0, 10), (4, 15), NONE, NONE, NONE, NONE],
    [(0, 35), (1, 4), NONE, NONE, NONE, NONE],
    [(0, 27), (2, 54), (5, 10), (6, 24), NONE, NONE],
    [(0, 24), (0, 31), (2, 53), NONE, NONE, NONE],
    [(1, 12), (6, 3), (7, 9), NONE, NONE, NONE],
    [(0, 3), (3, 21), (7, 10), NONE, NONE, NONE],
    [(1, 1), (2, 27), (7, 11), NONE, NONE, NONE],
    [(1, 16), (4, 38), (7, 12), NONE, NONE, NONE],
    [(2, 5), (3, 27), (7, 13), NONE, NONE, NONE],
    [(0, 13), (1, 19), (3, 6), (4, 28), (7, 14), NONE],
    [(2, 12), (7, 15), NONE, NONE, NONE, NONE],
    [(0, 22), (0, 28), (5, 16), (7, 16), NONE, NONE],
    [(0, 21), (7, 17), NONE, NONE, NONE, NONE],
    [(4, 29), (5, 14), (7, 18), NONE, NONE, NONE],
    [(2, 8), (2, 11), (3, 32), (4, 30), (6, 14), NONE],
    [(3, 29), (5, 8), NONE, NONE, NONE, NONE],
    [(4, 31), NONE, NONE, NONE, NONE, NONE],
    [NONE, NONE, NONE, NONE, NONE, NONE],
    [(5, 5), (6, 1), NONE, NONE, NONE, NONE],
    [(2, 13), (2, 19), NONE, NONE, NONE, NONE],
    [NONE, NONE, NONE, NONE, NONE, NONE],
    [(3, 5), NONE, NONE, NONE, NONE, NONE],
    [(0, 0), (0, 6), (2, 34), NONE, NONE, NONE],
    [NONE, NONE, NONE, NONE, NONE, NONE],
    [(5, 3), NONE, NONE, NONE, NONE, NONE],
    [(1, 9), NONE, NONE, NONE, NONE, NONE],
    [(5, 4), NONE, NONE, NONE, NONE, NONE],
    [NONE, NONE, NONE, NONE, NONE, NONE],
    [NONE, NONE, NONE, NONE, NONE, NONE],
    [(2, 18), (6, 5), NONE, NONE, NONE, NONE],
    [(1, 3), (3, 26), NONE, NONE, NONE, NONE],
    [(3, 24), (7, 53), NONE, NONE, NONE, NONE],
    [(4, 39), NONE, NONE, NONE, NONE, NONE],
    [(0, 17), NONE, NONE, NONE, NONE, NONE],
    [(1, 0), (2, 7), (3, 3), NONE, NONE, NONE],
    [(7, 39), NONE, NONE, NONE, NONE, NONE],
    [(2, 14), (2, 40), (6, 9), (7, 40), NONE, NONE],
    [(2, 39), (3, 0), (7, 41), NONE, NONE, NONE],
    [(0, 30), (2, 22), (5, 13), (7, 42), NONE, NONE],
    [(1, 29), (5, 15), (7, 43), NONE, NONE, NONE],
    [(1, 10), (4, 13), (7, 44), NONE, NONE, NONE],
    [(1, 22), (3, 22), (7, 45), NONE, NONE, NONE],
    [(2, 6), (6, 25), (7, 46), NONE, NONE, NONE],
    [(4, 43), (6, 6), (7, 47), NONE, NONE, NONE],
    [(2, 25), (4, 37), (7, 48), NONE, NONE, NONE],
    [(0, 5), NONE, NONE, NONE, NONE, NONE],
    [(2, 52), (4, 12), (5, 0), NONE, NONE, NONE],
    [(4, 0), NONE, NONE, NONE, NONE, NONE],
    [(1, 2), (3, 25), (4, 1), (5, 1), NONE, NONE],
    [(1, 27), (4, 3), NONE, NONE, NONE, NONE],
    [(0, 34), (4, 4), NONE, NONE, NONE, NONE],
    [(4, 5), (5, 12), (6, 26), NONE, NONE, NONE],
    [(4, 6), NONE, NONE, NONE, NONE, NONE],
    [(3, 9), (4, 7), (4, 11), NONE, NONE, NONE],
    [(3, 10), (4, 8), (6, 21), NONE, NONE, NONE],
    [(1, 6), (3, 11), (4, 9), (4, 32), NONE, NONE],
    [(3, 13), (4, 10), (4, 33), (5, 6), (6, 4), (6, 10)],
    [(3, 14), (4, 34), (7, 19), NONE, NONE, NONE],
    [(3, 15), (6, 13), (7, 20), NONE, NONE, NONE],
    [(2, 41), (3, 16), (4, 21), (6, 7), (6, 27), (7, 21)],
    [(2, 20), (3, 17), (7, 22), NONE, NONE, NONE],
    [(3, 8), (3, 18), (4, 17), (7, 23), NONE, NONE],
    [(0, 2), (3, 19), (4, 14), (7, 24), NONE, NONE],
    [(3, 20), (4, 22), (5, 7), (7, 25), NONE, NONE],
    [(0, 7), (7, 26), (8, 0), NONE, NONE, NONE],
    [(2, 24), (7, 27), NONE, NONE, NONE, NONE],
    [(1, 32), (6, 18), (6, 22), (7, 28), NONE, NONE],
    [(0, 15), (0, 26), (1, 28), (2, 30), (3, 33), NONE],
    [(0, 33), (6, 17), (9, 1), NONE, NONE, NONE],
    [(3, 1), NONE, NONE, NONE, NONE, NONE],
    [(2, 2), (2, 47), NONE, NONE, NONE, NONE],
    [(1, 11), NONE, NONE, NONE, NONE, NONE],
    [(1, 15), (2, 29), (9, 0), NONE, NONE, NONE],
    [(1, 24), (2, 10), (2, 44), (6, 19), NONE, NONE],
    [(4, 19), NONE, NONE, NONE, NONE, NONE],
    [(1, 26), NONE, NONE, NONE, NONE, NONE],
    [(0, 29), (1, 21), NONE, NONE, NONE, NONE],
    [(5, 9), (6, 8), NONE, NONE, NONE, NONE],
    [(3, 7), (4, 24), (6, 11), NONE, NONE, NONE],
    [(0, 32), (1, 7), (3, 12), NONE, NONE, NONE],
    [(0, 9), (3, 34), (7, 0), NONE, NONE, NONE],
    [(4, 44), (5, 11), (7, 1), NONE, NONE, NONE],
    [(1, 25), (4, 36), (4, 47), (7, 2), NONE, NONE],
    [(2, 42), (7, 3), NONE, NONE, NONE, NONE],
    [(2, 23), (7, 4), NONE, NONE, NONE, NONE],
];

/// The kind and position of the capability with this name; `None` if the table has no such name
/// (terminfo(5)).
pub fn find_name(name: &[u8]) -> Option<(Kind, Slot)>
    ensures { option_map (λ r. (r.0, r.1.0)) result ≡ capability_of name.now }
{
    let bucket = bucket_of(&BUCKETS, bucket_number(name));
    found_in(bucket, name)
}

/// The number of a name's bucket.
fn bucket_number(name: &[u8]) -> usize
    ensures number { result ≡ bucket_number 0 name.now }
    ensures inside { result < 128 }
{
    let mut number = 0;
    for byte in name {
        number = (number * 53 + usize::from(*byte)) % 128;
    }
    number
}

/// The bucket with this number; empty if there is none.
fn bucket_of(buckets: &[[(u8, u8); 6]], number: usize) -> &[(u8, u8)]
    ensures { result.now ≡ slice_index_or buckets.now number [] }
{
    match buckets.get(number) {
        Some(bucket) => bucket,
        None => &[],
    }
}

/// The capability at an address; `None` unless this is its name.
fn found_at(address: (u8, u8), name: &[u8]) -> Option<(Kind, Slot)>
    ensures { option_map (λ c. (c.0, c.1.0)) result ≡ found_at name.now address }
{
    let run = run_at(usize::from(address.0))?;
    let slot = run.slot_of(address.1, name)?;
    Some((run.kind, slot))
}

/// The capability at the first of these addresses that has this name.
fn found_in(addresses: &[(u8, u8)], name: &[u8]) -> Option<(Kind, Slot)>
    ensures { option_map (λ c. (c.0, c.1.0)) result ≡ found_in name.now addresses.now }
{
    for address in addresses {
        if let Some(capability) = found_at(*address, name) {
            return Some(capability);
        }
    }
    None
}
