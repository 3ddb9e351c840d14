// What is filed by lane and slot.
ghost use Rattle.std.specs.Prelude.{◌≡◌, ℕ, Bool};

/// A value that has a slot in a lane. Where it closes, its lane has no slot past it.
pub trait Placed {
    // What the three calls answer.
    ghost lane_of: { Self → ℕ };

    ghost slot_of: { Self → ℕ };

    ghost closes_of: { Self → Bool };

    fn lane(&self) -> u32
        ensures { result ≡ lane_of self.now };

    fn slot(&self) -> u32
        ensures { result ≡ slot_of self.now };

    fn closes(&self) -> bool
        ensures { result ≡ closes_of self.now };
}
