// A net's text in PNML, of a net that was read: how long it is, and how it is put (document 02, P5).
pub mod lengths;
pub mod puts;
