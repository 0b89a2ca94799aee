// What a solver is at.

// Stating: rules are stated, marked and taken back. Searching: regions wait, and runs take them.
#[derive(Clone, Copy, PartialEq, Eq, Debug)]
pub enum Phase {
    Stating,
    Searching,
}
