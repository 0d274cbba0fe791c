//! Places in lists.

/// The number at a place, or another where there is no such place.
#[inline(always)]
pub fn at<T: Copy>(numbers: &[T], place: usize, other: T) -> T {
    match numbers.get(place) {
        Some(&number) => number,
        None => other,
    }
}

/// Puts a number at a place, where there is such a place.
#[inline(always)]
pub fn put<T: Copy>(numbers: &mut [T], place: usize, number: T) {
    if place < numbers.len() {
        numbers[place] = number;
    }
}

/// Sets each number.
pub fn fill(numbers: &mut [u32], number: u32) {
    for one in numbers.iter_mut() {
        *one = number;
    }
}

/// Adds one to a number, where there is such a place.
pub fn count_at(numbers: &mut [u32], place: usize) {
    if place < numbers.len() {
        numbers[place] = numbers[place].wrapping_add(1);
    }
}
