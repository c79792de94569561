// Two kinds of load over any arrival model: the whole level of a task, and one position of its busy window.
ghost use Rattle.std.specs.Prelude.{◌≡◌, ◌*◌, ◌≤◌};
ghost use Rattle.arrival.specs.declared.class.Class.TheVariants.{Typical};
ghost use Rattle.theory.specs.Levels.{arrivals, level_load, position_load};
ghost use Rattle.theory.specs.Sets.{member};
ghost use Rattle.loads.specs.Laws.{level_rises, position_rises};
ghost use Rattle.loads.specs.Works.{wcet_of};

use crate::Load;
use crate::combination::Combination;
use crate::level::Level;
use arrival::ArrivalModel;
use arrival::class::Class;

// At most so many jobs of task j are released in a window of this length, with overload only in the combination.
pub fn arrivals_in<M: ArrivalModel>(model: &M, combination: &Combination, j: u8, length: u32) -> u64
    ensures value { result ≡ arrivals (M.meaning model.now) (member combination.now.mask) j length }
    ensures bound { result ≤ 2 * length }
    ensures behind { 32 ≤ j → result ≡ (M.meaning model.now).count j Typical length }
{
    let typical = model.count(j, Class::Typical, length) as u64;
    if combination.contains(j) {
        typical + model.count(j, Class::Overload, length) as u64
    } else {
        typical
    }
}

// The work of the level.
#[derive(Drop)]
pub struct LevelLoad<'a, M> {
    pub level: Level<'a, M>,
    pub combination: Combination,
}

impl<'a, M: ArrivalModel> Load for LevelLoad<'a, M> {
    ghost load = { λ l. level_load (M.ArrivalModel.meaning l.level.model.now) (wcet_of l.level.tasks.now) (member l.combination.mask) l.level.task };

    ghost rises = { λ l. level_rises (M.ArrivalModel.meaning l.level.model.now) (M.ArrivalModel.monotone l.level.model.now) (wcet_of l.level.tasks.now) (member l.combination.mask) l.level.task };

    fn at(&self, length: u32) -> u64 {
        let tasks = self.level.task as usize + 1;
        self.level.demand(&self.combination, tasks, length)
    }
}

// The work of q jobs of the level's task, and of the tasks before it.
#[derive(Drop)]
pub struct PositionLoad<'a, M> {
    pub level: Level<'a, M>,
    pub combination: Combination,
    pub q: u32,
}

impl<'a, M: ArrivalModel> Load for PositionLoad<'a, M> {
    ghost load = { λ l. position_load (M.ArrivalModel.meaning l.level.model.now) (wcet_of l.level.tasks.now) (member l.combination.mask) l.level.task l.q };

    ghost rises = { λ l. position_rises (M.ArrivalModel.meaning l.level.model.now) (M.ArrivalModel.monotone l.level.model.now) (wcet_of l.level.tasks.now) (member l.combination.mask) l.level.task l.q };

    fn at(&self, length: u32) -> u64 {
        let own = self.level.work(self.q);
        let before = self.level.task as usize;
        own + self.level.demand(&self.combination, before, length)
    }
}
