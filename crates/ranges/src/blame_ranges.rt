use crate::rows::Rows;

// The lines that are asked: those of the ranges, or the whole file where there is
// none. (No enum of the two: the whole file, too, keeps the room for 64 ranges that
// was reserved for it.)
#[derive(Drop)]
pub struct BlameRanges {
    pub(crate) ranges: Rows,
}
