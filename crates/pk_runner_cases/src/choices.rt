// The numbers that runs take.

use pk_ctypes::{IntType, convert, range};
use std::alloc::{AllocError, Global};

// A number of the type: one of its ends, any, or one near 0.
fn drawn(int_type: IntType, number: u64) -> i128 {
    let (low, high) = range(int_type);
    match number % 6 {
        0 => low,
        1 => high,
        2 => convert(int_type, (number >> 8) as i128),
        3 => convert(int_type, ((number >> 8) % 24) as i128 - 8),
        _ => convert(int_type, ((number >> 8) % 5) as i128 - 2),
    }
}

/// What a run takes the time after so many times: the next list, nothing behind the last; or by a seed that isn't 0 so many numbers of the type, which a linear congruence of
/// Knuth's draws.
pub fn taken(
    alloc: Global,
    lists: &[Vec<i128>],
    seed: u64,
    times: &mut usize,
    int_type: IntType,
    count: usize,
) -> Result<Vec<i128>, AllocError> {
    let time = *times;
    *times = time.saturating_add(1);
    if seed == 0 {
        return match lists.get(time) {
            Some(list) => Vec::from_slice(alloc, list),
            None => Ok(Vec::new(alloc)),
        };
    }
    let mut state = seed
        .wrapping_mul(2862933555777941757)
        .wrapping_add(time as u64);
    let mut numbers = Vec::new(alloc);
    for _ in 0..count {
        state = state
            .wrapping_mul(6364136223846793005)
            .wrapping_add(1442695040888963407);
        numbers.push(drawn(int_type, state >> 33))?;
    }
    Ok(numbers)
}
