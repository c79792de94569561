// How many combinations fit into the budgets of the sources at most: one cell for each state of the budgets, filled from the
// empty state on.
ghost use Rattle.std.specs.Prelude.{◌≡◌, ◌+◌, ◌<◌, ◌≤◌, max, length, drop, MatchOption};
ghost use Rattle.analysis.specs.Sources.{CellsFilled, EachTakes, HasLeft, MostOf, back_by, budget_of, masks, state_at, states_of};

use crate::sources::SourceList;
use loads::combination::Combination;

// The larger of the number so far and one more than a cell.
fn with_one_more(most: u16, cell: u16) -> u16
    requires { cell < 65535 }
    ensures { result ≡ max most (cell + 1) }
{
    most.max(cell + 1)
}

impl SourceList {
    // The number of states: the product of (budget + 1) over the sources.
    pub(crate) fn states(&self) -> usize
        ensures { result ≡ states_of self.now.sources }
    {
        let mut states = 1;
        for source in self.sources.as_slice() {
            states *= source.budget as usize + 1;
        }
        states
    }

    // How far back the state lies that has one less of each source in the set; none if a source in it has nothing left.
    fn step_back(&self, set: &Combination, place: usize) -> Option<usize>
        ensures { let ss = self.now.sources in MatchOption result (HasLeft ss place set.now.mask → ⊥) (λ back. HasLeft ss place set.now.mask × (back ≡ back_by ss set.now.mask)) }
    {
        let mut rest = place;
        let mut stride = 1;
        let mut back = 0;
        for source in self.sources.as_slice() {
            let radix = source.budget as usize + 1;
            if set.contains(source.task) {
                if rest % radix == 0 {
                    return None;
                }
                back += stride;
            }
            rest /= radix;
            stride *= radix;
        }
        Some(back)
    }

    // The greatest number of combinations that the state at a place allows, from the cells before it.
    fn best(&self, combinations: &[Combination], cells: &[u16], place: usize) -> u16
        requires takes { EachTakes (masks combinations.now) self.now.sources }
        requires within { place < states_of self.now.sources }
        requires room { states_of self.now.sources ≤ length cells.now }
        requires filled { CellsFilled (masks combinations.now) self.now.sources cells.now place }
        ensures { MostOf (masks combinations.now) self.now.sources (state_at self.now.sources place) result }
    {
        let mut most = 0;
        for set in combinations {
            if let Some(back) = self.step_back(set, place) {
                most = with_one_more(most, cells[place - back]);
            }
        }
        most
    }

    // Fills one cell for each state; the last one, where nothing is taken yet, is the answer.
    pub(crate) fn pack(&self, combinations: &[Combination], cells: &mut [u16]) -> u16
        requires takes { EachTakes (masks combinations.now) self.now.sources }
        requires room { states_of self.now.sources ≤ length cells.old }
        ensures most { MostOf (masks combinations.now) self.now.sources (budget_of self.now.sources) result }
        ensures kept { let n = states_of self.now.sources in drop n cells.new ≡ drop n cells.old }
    {
        let states = self.states();
        // By place: a cell is computed from the cells before it, so no iterator over them can stand.
        for place in 0..states {
            cells[place] = self.best(combinations, cells, place);
        }
        cells[states - 1]
    }
}
