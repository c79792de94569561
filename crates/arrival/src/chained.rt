// Any two models as one: the tasks of the first, then those of the second, ending behind the 255th.
ghost use Rattle.arrival.specs.Chain.{chain};
ghost use Rattle.arrival.specs.ChainLaws.{chain-zero_at_zero, chain-monotone, chain-at_most_length, chain-few_tasks, chain-absent_is_zero};

use crate::class::Class;
use crate::{ArrivalModel, MAX_HELD};

// Holds its models by value; a model that is lent is a model too, so a chain of `&F` and `&G` borrows.
#[derive(Drop)]
pub struct ChainedModel<F, G> {
    pub first: F,
    pub second: G,
}

impl<F: ArrivalModel, G: ArrivalModel> ArrivalModel for ChainedModel<F, G> {
    ghost meaning = { λ m. chain (F.ArrivalModel.meaning m.first) (G.ArrivalModel.meaning m.second) };

    ghost zero_at_zero = { λ m. chain-zero_at_zero (F.ArrivalModel.meaning m.first) (G.ArrivalModel.meaning m.second) (F.ArrivalModel.zero_at_zero m.first) (G.ArrivalModel.zero_at_zero m.second) };

    ghost monotone = { λ m. chain-monotone (F.ArrivalModel.meaning m.first) (G.ArrivalModel.meaning m.second) (F.ArrivalModel.monotone m.first) (G.ArrivalModel.monotone m.second) };

    ghost at_most_length = { λ m. chain-at_most_length (F.ArrivalModel.meaning m.first) (G.ArrivalModel.meaning m.second) (F.ArrivalModel.at_most_length m.first) (G.ArrivalModel.at_most_length m.second) };

    ghost few_tasks = { λ m. chain-few_tasks (F.ArrivalModel.meaning m.first) (G.ArrivalModel.meaning m.second) };

    ghost absent_is_zero = { λ m. chain-absent_is_zero (F.ArrivalModel.meaning m.first) (G.ArrivalModel.meaning m.second) (G.ArrivalModel.absent_is_zero m.second) };

    fn tasks(&self) -> u8 {
        self.first.tasks().saturating_add(self.second.tasks())
    }

    fn count(&self, task: u8, class: Class, length: u32) -> u32 {
        if task >= MAX_HELD {
            return 0;
        }
        let held = self.first.tasks();
        if task < held {
            self.first.count(task, class, length)
        } else {
            self.second.count(task - held, class, length)
        }
    }
}
