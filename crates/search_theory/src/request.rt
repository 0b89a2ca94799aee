// A call of the solver, as data.

// Run carries its budget, Limit its two nodes.
#[derive(Clone, Copy, Debug)]
pub enum Request<R> {
    State(R),
    Mark,
    Back,
    Keep,
    Begin,
    Run(u32),
    Leave,
    Limit(u8, u8),
}
