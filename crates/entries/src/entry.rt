// What a settings file lists: each kind of entry is read at the front of some bytes.
ghost use Rattle.std.specs.Prelude.{◌≡◌, ℕ, ◌≤◌, List, length, Ok};
ghost use Rattle.base.specs.Faults.{in_numbers};
ghost use Rattle.file_format.specs.Entries.{Front};
ghost use Rattle.entries.specs.Values.{with_size};

// How many bytes an entry has; a staircase has its points behind its head. The length is tested before the bytes are read by
// place: with `split_first_chunk` two goals of a task stayed open.
pub const TASK_SIZE: usize = 8;

pub const CURVES_SIZE: usize = 24;

pub const HEAD_SIZE: usize = 6;

pub const QUESTION_SIZE: usize = 7;

pub trait Entry<'a>: Copy {
    // why there is none
    type Fault;

    ghost fault_number: { Self.Fault → ℕ };

    // what an entry stands for
    ghost Meaning: { Type 0 };

    ghost meaning: { Self → Meaning };

    // what stands at the front of some bytes
    ghost at_front: { List ℕ → Front Meaning };

    // The entry, and the number of its bytes.
    fn read(bytes: &'a [u8]) -> Result<(Self, usize), Self::Fault>
        ensures { in_numbers (with_size meaning) fault_number result ≡ at_front bytes.now };

    // It lies within the bytes.
    ghost within: { (bytes : List ℕ) (found : Meaning × ℕ) → at_front bytes ≡ Ok found → found.1 ≤ length bytes };
}

mod impls;
