//! A stripe of a stack: the items whose places are equal modulo 16.
ghost use Rattle.std.specs.Prelude.{◌≡◌, vec_capacity};

pub(crate) mod room;

/// Every sixteenth item of a stack, the lowest first, and its vector's room. The room is exactly the vector's capacity.
#[derive(Drop)]
pub struct Stripe {
    pub items: Vec<u32>,
    pub room: u64,
    ghost real: { vec_capacity items ≡ room },
}
