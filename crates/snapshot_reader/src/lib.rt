// The rows of a snapshot, walked one by one where they stand: as they are, unjudged, each once. Every function takes any bytes and any place.
#![tactic(auto)]

pub mod reader;
pub mod row;
