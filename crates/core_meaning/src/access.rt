//! What a place is once its parts are evaluated.

/// What a place is once its parts are evaluated: an address, or a local and an offset in it.
#[derive(Clone, Copy, PartialEq, Eq, Debug)]
pub enum Where {
    At(u16),
    Within(u32, u32),
}
