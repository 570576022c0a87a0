//! The content of a place, and the knowledge of a desk.

use std::collections::LinkedList;

/// The content of a place's slot: nothing, the input of a piece, or its output.
#[derive(Drop)]
pub enum Content<I, O> {
    Nothing,
    Input(I),
    Output(O),
}

/// What contracts see of a desk. No value of this type is ever built.
pub struct DeskView<I> {
    /// The desk's own row.
    pub row: u64,
    /// The places of its row that are not free, by their numbers in the row, each with the input posted there last.
    pub posted: LinkedList<(u64, I)>,
    /// The places that it claimed and has not finished, by their numbers on the board, each with the input it claimed.
    pub claims: LinkedList<(u64, I)>,
    /// The places of its row at which it posted, one for each post, in the order of the posts.
    pub posts: LinkedList<u64>,
    /// How many pieces it finished.
    pub finishes: u64,
    /// How many results it collected.
    pub collects: u64,
    /// How many of its collects found no result.
    pub empty_collects: u64,
    /// The row and place of each claim that got a piece, in the order of the claims.
    pub given: LinkedList<(u64, u64)>,
    /// The row and place of each refused claim, in the order of the claims.
    pub refused: LinkedList<(u64, u64)>,
}

/// A look that did not find what it was for, and so left its word as it was. No value of this type is ever built.
#[derive(Clone, Copy)]
pub struct Miss {
    /// The place whose word it is, by its number on the board, and the number found there.
    pub word: u64,
    pub found: u64,
    /// The moment of the look: the length of the trace then, and how many of its events were the seat's own.
    pub moment: u64,
    pub events: u64,
}

/// The knowledge of a seat at the board. No value of this type is ever built.
pub struct View<I> {
    /// What contracts see of the seat as a desk.
    pub desk: DeskView<I>,
    /// The seat's rows are those from `desk.row` up to, but not including, this one. A desk has one row; the seat
    /// from which the desks are split has all remaining rows.
    pub end_row: u64,
    /// One more than the number of the place whose slot the seat has in hand, or 0 if it has none.
    pub in_hand: u64,
    /// The places whose words it changed, by their numbers on the board, one for each change, the oldest first.
    pub events: LinkedList<u64>,
    /// Its misses, the newest first: each refused claim, and each collect that found no result.
    pub misses: LinkedList<Miss>,
}
