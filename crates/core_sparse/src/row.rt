// The entries of a row that are kept, with room for what a pivot makes of them.

/// An entry that is not 0, and the position of its column.
#[derive(Clone, Copy, Debug)]
pub struct Item<E> {
    pub col: usize,
    pub value: E,
}

/// The items of a row by rising column, and its value.
#[derive(Drop)]
pub struct Row<E> {
    pub items: Vec<Item<E>>,
    pub value: E,
}

/// A row, room for what a pivot makes of it, and whether the pivot that was made last changes it.
#[derive(Drop)]
pub struct Slot<E> {
    pub row: Row<E>,
    pub spare: Row<E>,
    pub made: bool,
}
