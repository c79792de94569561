// Loads of a window, and the least length that serves one.
#![tactic(auto)]

ghost use Rattle.std.specs.Prelude.{◌≡◌, ℕ, ◌≤◌, MatchOption};
ghost use Rattle.theory.specs.Least.{Least, Rises, Serves};

pub mod combination;
pub mod kinds;
pub mod level;

// Work that is due within a window, by the window's length.
pub trait Load {
    ghost load: { Self → ℕ → ℕ };

    // a longer window never has less
    ghost rises: { (l : Self) → Rises (load l) };

    fn at(&self, length: u32) -> u64
        ensures { result ≡ load self.now length };
}

// The least length up to the limit that serves the load; none exactly if no such length does. Where a length does not, none
// below its load does either, so the search goes on there.
pub fn least_length<L: Load>(l: &L, limit: u32) -> Option<u32>
    ensures { MatchOption result ((w : ℕ) → w ≤ limit → Serves (L.load l.now) w → ⊥) (λ w. (w ≤ limit) × Least (Serves (L.load l.now)) w) }
{
    let mut length = 1;
    while length <= limit {
        let due = l.at(length);
        if due <= length as u64 {
            return Some(length);
        }
        if due > limit as u64 {
            return None;
        }
        length = due as u32;
    }
    None
}
