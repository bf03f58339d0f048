// Places of a list that may not have them.

// The value at the place, or what stands for a missing one.
pub fn at<T: Copy>(values: &[T], place: usize, missing: T) -> T {
    values.get(place).copied().unwrap_or(missing)
}

// Puts the value at the place if the list has it.
pub fn put<T: Drop>(values: &mut [T], place: usize, value: T) {
    if let Some(old) = values.get_mut(place) {
        *old = value;
    }
}
