// Weight sheets and movement sheets: a weight for each pair, a list of modes.
pub mod movements;
pub mod weights;
