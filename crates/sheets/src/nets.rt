// The net sheet: bytes in. A net stays in the bytes that the caller lent; reading tests it once.
// What the reader answers is said in specs/nets/Nets.antt.
mod arcs;
mod groups;
pub mod net;
mod tails;
