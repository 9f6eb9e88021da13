//! Tables of names.

/// The value beside a name in a table.
pub fn look_up<T: Copy>(table: &[(&[u8], T)], name: &[u8]) -> Option<T> {
    for (text, item) in table {
        if *text == name {
            return Some(*item);
        }
    }
    None
}
