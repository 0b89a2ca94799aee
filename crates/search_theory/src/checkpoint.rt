// What a mark stores.

// The shape and how many rules stood: the rules themselves lie in the lent slice.
#[derive(Clone, Copy, Debug)]
pub struct Checkpoint<S> {
    pub shape: S,
    pub rules: usize,
}
