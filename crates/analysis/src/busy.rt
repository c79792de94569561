// Busy windows of a level, and which of their positions are late.
ghost use Rattle.std.specs.Prelude.{◌≡◌, ℕ, ◌-◌, ◌*◌, ◌≤◌, ◌&&◌, Decides, MatchOption, nat_le, nat_lt};
ghost use Rattle.loads.specs.Tables.{table_of};
ghost use Rattle.theory.specs.Least.{Serves};
ghost use Rattle.theory.specs.Levels.{BusyLength, arrivals, level_load};
ghost use Rattle.theory.specs.Positions.{LatePosition, Unschedulable};
ghost use Rattle.theory.specs.Questions.{LateCount, WindowLength};
ghost use Rattle.theory.specs.Sets.{member};

use arrival::ArrivalModel;
use loads::combination::Combination;
use loads::kinds::{LevelLoad, PositionLoad, arrivals_in};
use loads::least_length;
use loads::level::Level;

// A busy window is looked for up to this length.
const MAX_WINDOW: u32 = 1_000_000;

// The longest busy window of a level with overload in a set of tasks only.
#[derive(Drop)]
pub(crate) struct BusyWindow<'a, M: ArrivalModel> {
    level: &'a Level<'a, M>,
    set: Combination,
    pub(crate) length: u32,
    ghost short: { length ≤ 1000000 },
    ghost longest: { BusyLength (M.meaning level.now.model.now) (table_of level.now.tasks.now).wcet (member set.mask) level.now.task length },
}

impl<'a, M: ArrivalModel> BusyWindow<'a, M> {
    // The busy window with this overload, where it is within the limit.
    pub(crate) fn find(
        level: &'a Level<'a, M>,
        set: Combination,
        limit: u32,
    ) -> Option<BusyWindow<'a, M>>
        requires { limit ≤ 1000000 }
        ensures { MatchOption result
            ((w : ℕ) → w ≤ limit → Serves (level_load (M.meaning level.now.model.now) (table_of level.now.tasks.now).wcet (member set.mask) level.now.task) w → ⊥)
            (λ b. (b.level.now ≡ level.now) × (b.set ≡ set) × (b.length ≤ limit)) }
    {
        let load = LevelLoad {
            level: *level,
            combination: set,
        };
        let length = least_length(&load, limit)?;
        Some(BusyWindow { level, set, length })
    }

    // L: the busy window where every task may be overloaded.
    pub(crate) fn longest(level: &'a Level<'a, M>) -> Option<BusyWindow<'a, M>>
        ensures { let m = M.meaning level.now.model.now in
            let t = table_of level.now.tasks.now in
            MatchOption result
            ((L : ℕ) × (L ≤ 1000000) × WindowLength m t level.now.task L → ⊥)
            (λ b. (b.level.now ≡ level.now) × (b.set.mask ≡ 4294967295)) }
    {
        BusyWindow::find(level, Combination::every(), MAX_WINDOW)
    }

    // The busy window with overload in the set only: no longer than this one, where every task may be overloaded.
    pub(crate) fn with_overload(&self, set: Combination) -> BusyWindow<'a, M>
        requires { self.now.set.mask ≡ 4294967295 }
        ensures { (result.level.now ≡ self.now.level.now) × (result.set ≡ set) }
    {
        // No `unwrap`: tried, the borrow checker does not cover it for this type yet.
        match BusyWindow::find(self.level, set, self.length) {
            Some(window) => window,
            None => unreachable!(),
        }
    }

    // How many jobs of the task a stretch of this length holds at most.
    fn jobs(&self, length: u32) -> u64
        ensures value { let l = self.now.level.now in result ≡ arrivals (M.meaning l.model.now) (member self.now.set.mask) l.task length }
        ensures bound { result ≤ 2 * length }
    {
        arrivals_in(self.level.model, &self.set, self.level.task, length)
    }

    // How many positions the window has.
    pub(crate) fn positions(&self) -> u32
        ensures { let l = self.now.level.now in result ≡ arrivals (M.meaning l.model.now) (member self.now.set.mask) l.task self.now.length }
    {
        self.jobs(self.length) as u32
    }

    fn deadline(&self) -> u32
        ensures { let l = self.now.level.now in result ≡ (table_of l.tasks.now).deadline l.task }
    {
        self.level.tasks[self.level.task as usize].deadline()
    }

    // Whether q jobs can be released more than a deadline before this offset.
    fn overdue(&self, q: u32, finish: u32) -> bool
        ensures { let l = self.now.level.now in
            let d = (table_of l.tasks.now).deadline l.task in
            result ≡ (nat_lt d finish && nat_le q (arrivals (M.meaning l.model.now) (member self.now.set.mask) l.task (finish - d))) }
    {
        let deadline = self.deadline();
        finish > deadline && self.jobs(finish - deadline) >= q as u64
    }

    // Whether position q is late.
    fn is_late(&self, q: u32) -> bool
        requires { let l = self.now.level.now in (1 ≤ q) × (q ≤ arrivals (M.meaning l.model.now) (member self.now.set.mask) l.task self.now.length) }
        ensures { let l = self.now.level.now in Decides result (LatePosition (M.meaning l.model.now) (table_of l.tasks.now) l.task (member self.now.set.mask) q) }
    {
        let load = PositionLoad {
            level: *self.level,
            combination: self.set,
            q,
        };
        let finish = least_length(&load, self.length).unwrap();
        self.overdue(q, finish)
    }

    // Whether some position is late.
    pub(crate) fn has_late(&self) -> bool
        ensures { let l = self.now.level.now in Decides result (Unschedulable (M.meaning l.model.now) (table_of l.tasks.now) l.task (member self.now.set.mask)) }
    {
        (0..self.positions()).any(|earlier| self.is_late(earlier + 1))
    }

    // N: how many positions are late, where every task may be overloaded.
    pub(crate) fn late_positions(&self) -> u32
        requires { self.now.set.mask ≡ 4294967295 }
        ensures { let l = self.now.level.now in LateCount (M.meaning l.model.now) (table_of l.tasks.now) l.task self.now.length result }
    {
        (0..self.positions())
            .filter(|earlier| self.is_late(earlier + 1))
            .count() as u32
    }
}
