//! A reach: an entry of a hull's sheet.

/// A squared distance, or a number below 0 where the sheet has none: from -511 to 7,200,000,000 in
/// every place of a hull's sheet. The greater stands first.
#[derive(Clone, Copy, PartialEq, Eq, PartialOrd, Ord, Debug)]
pub struct Reach {
    // One number for all three kinds: the sheet is lawful since entries left of the distances rise with their column.
    pub value: i64,
}
