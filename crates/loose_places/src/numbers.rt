//! Numbers in smaller types.

/// The number, or the largest of its type.
pub fn short(number: usize) -> u32 {
    if number < u32::MAX as usize {
        number as u32
    } else {
        u32::MAX
    }
}

/// The number, or the largest of its type.
pub fn small(number: usize) -> u16 {
    if number < u16::MAX as usize {
        number as u16
    } else {
        u16::MAX
    }
}

// 2^62, so that the sum of two such numbers is one of the type.
const MOST: i64 = 4_611_686_018_427_387_904;

/// The number, or the nearest that is at most 2^62 from 0.
pub fn narrow(number: i128) -> i64 {
    if number < -(MOST as i128) {
        -MOST
    } else if number < MOST as i128 {
        number as i64
    } else {
        MOST
    }
}

/// The number, or the nearest of the type.
pub fn near(number: i64) -> i32 {
    if number < i64::from(i32::MIN) {
        i32::MIN
    } else if number < i64::from(i32::MAX) {
        number as i32
    } else {
        i32::MAX
    }
}
