// One mode at a marking, by its own arcs alone.
pub mod arcs;
pub mod mode;
pub mod pair;
