// Arrival curves, and the curves of one task.
ghost use Rattle.std.specs.Prelude.{◌≡◌, ℕ};
ghost use Rattle.arrival.specs.Meaning.{CurveLaws};

// The counts of one task and class, by the window's length.
pub trait ArrivalCurve {
    ghost counts: { Self → ℕ → ℕ };

    ghost lawful: { (c : Self) → CurveLaws (counts c) };

    fn count(&self, length: u32) -> u32
        ensures { result ≡ counts self.now length };
}

// The curves of one task.
#[derive(Clone, Copy)]
pub struct TaskCurves<C> {
    pub typical: C,
    pub overload: C,
}
