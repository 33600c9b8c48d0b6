// The types of document 01's admission; no code. What they mean stands in specs/, with the rules of the map and demand 3.

#![tactic(auto)]

// A record of the map.
#[derive(Clone, Copy)]
pub struct Mark {
    pub address: u16,
    pub kind: u8,
    pub height: u8,
    pub need: u8,
}

// What is asked of a successor: to be marked with this kind and height, and a need that with `more` is at most `limit`.
#[derive(Clone, Copy)]
pub struct Successor {
    pub address: u16,
    pub kind: u8,
    pub height: u16,
    pub more: u16,
    pub limit: u16,
}

// What 16 asks of a record: how many successors, and which.
#[derive(Clone, Copy)]
pub enum Successors {
    None,
    One(Successor),
    Two(Successor, Successor),
}
