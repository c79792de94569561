// A set of tasks, as a mask with a bit for each.
ghost use Rattle.std.specs.Prelude.{◌≡◌, ◌<◌, true, Decides, ◌==◌, bit_and};
ghost use Rattle.theory.specs.Sets.{Subset, member};
ghost use Rattle.loads.specs.Added.{added};

#[derive(Clone, Copy, PartialEq, Eq, Debug)]
pub struct Combination {
    mask: u32,
}

// Whether bit j of the mask is set.
fn bit(mask: u32, j: u8) -> bool
    requires { j < 32 }
    ensures { result ≡ member mask j }
{
    (mask >> j) & 1 == 1
}

// The bits that are set in both masks.
fn common(a: u32, b: u32) -> u32
    ensures { result ≡ bit_and a b }
{
    a & b
}

impl Combination {
    // Every task of a table.
    pub fn every() -> Combination
        ensures { result.mask ≡ 4294967295 }
    {
        Combination { mask: u32::MAX }
    }

    pub fn none() -> Combination
        ensures { result.mask ≡ 0 }
    {
        Combination { mask: 0 }
    }

    pub fn is_empty(&self) -> bool
        ensures { result ≡ (self.now.mask == 0) }
    {
        self.mask == 0
    }

    // The set with task j added; it stays where no table has such a task.
    pub fn with(&self, j: u8) -> Combination
        ensures { result.mask ≡ added self.now.mask j }
    {
        if j >= 32 {
            return *self;
        }
        Combination {
            mask: self.mask | (1 << j),
        }
    }

    // Whether every task in the set is in the other one too.
    pub fn is_subset(&self, other: &Combination) -> bool
        ensures { Decides result (Subset self.now.mask other.now.mask) }
    {
        common(self.mask, other.mask) == self.mask
    }

    // Whether task j is in the set; a table has 32 tasks at most.
    pub fn contains(&self, j: u8) -> bool
        ensures value { result ≡ member self.now.mask j }
        ensures low { result ≡ true → j < 32 }
    {
        let mask = self.mask;
        j < 32 && bit(mask, j)
    }
}
