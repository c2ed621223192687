// The constant byte strings of a net's text in PNML, written on export and compared on import (document 02, P5). specs/Pnml.antt has the text that they make.
#![tactic(auto)]

// Before the first place.
pub const OPENING: [u8; 187] =
    *b"<?xml version=\"1.0\" encoding=\"UTF-8\"?>\n<pnml xmlns=\"http://www.pnml.org/version-2009/grammar/pnml\">\n  <net id=\"n\" type=\"http://www.pnml.org/version-2009/grammar/ptnet\">\n    <page id=\"g\">\n";

// After the last line.
pub const CLOSING: [u8; 29] = *b"    </page>\n  </net>\n</pnml>\n";

// A place: its pair, then the count of the first marking.
pub const PLACE: [u8; 18] = *b"      <place id=\"p";

pub const FIRST_MARKING: [u8; 24] = *b"\"><initialMarking><text>";

pub const PLACE_END: [u8; 33] = *b"</text></initialMarking></place>\n";

// A transition: its mode.
pub const TRANSITION: [u8; 23] = *b"      <transition id=\"t";

pub const TRANSITION_END: [u8; 4] = *b"\"/>\n";

// An arc: its mode and its pair, then where it goes from and to, and its weight.
pub const PRE: [u8; 16] = *b"      <arc id=\"i";

pub const POST: [u8; 16] = *b"      <arc id=\"o";

pub const AND_PAIR: [u8; 1] = *b"-";

pub const FROM_PLACE: [u8; 11] = *b"\" source=\"p";

pub const TO_TRANSITION: [u8; 11] = *b"\" target=\"t";

pub const FROM_TRANSITION: [u8; 11] = *b"\" source=\"t";

pub const TO_PLACE: [u8; 11] = *b"\" target=\"p";

pub const WEIGHT: [u8; 21] = *b"\"><inscription><text>";

pub const ARC_END: [u8; 28] = *b"</text></inscription></arc>\n";
