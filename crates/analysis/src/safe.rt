// Levels that a question can be asked about: their busy windows are bounded, and no job is late without overload.
ghost use Rattle.std.specs.Prelude.{◌≡◌, ℕ, suc, ◌≤◌, [], ◌∷◌, length, drop, MatchResult};
ghost use Rattle.base.specs.Tests.{Refused};
ghost use Rattle.loads.specs.Tables.{table_of};
ghost use Rattle.theory.specs.Packings.{Greatest};
ghost use Rattle.theory.specs.Questions.{Fails, LateCount, WindowLength};
ghost use Rattle.theory.specs.Sets.{Minimal};
ghost use Rattle.analysis.specs.Refusals.{refusal_number};
ghost use Rattle.analysis.specs.Sources.{Gathered, states_of};

use crate::busy::BusyWindow;
use crate::refusal::Refusal;
use crate::sources::SourceList;
use arrival::ArrivalModel;
use loads::combination::Combination;
use loads::level::Level;

#[derive(Drop)]
pub(crate) struct SafeLevel<'a, M: ArrivalModel> {
    pub(crate) longest: BusyWindow<'a, M>,
    ghost every: { longest.set.mask ≡ 4294967295 },
    ghost safe: { let l = longest.level.now in Fails (M.meaning l.model.now) (table_of l.tasks.now) l.task 0 → ⊥ },
}

impl<'a, M: ArrivalModel> SafeLevel<'a, M> {
    // The level with its longest busy window, where there is one and no job is late without overload.
    pub(crate) fn admit(level: &'a Level<'a, M>) -> Result<SafeLevel<'a, M>, Refusal>
        ensures { let l = level.now in
            let m = M.meaning l.model.now in
            let t = table_of l.tasks.now in
            MatchResult result
            (λ s. (s.longest.level.now ≡ l) × (s.longest.length ≤ 1000000) × WindowLength m t l.task s.longest.length × (Fails m t l.task 0 → ⊥))
            (λ f. Refused (((L : ℕ) × (L ≤ 1000000) × WindowLength m t l.task L, 35) ∷ (Fails m t l.task 0 → ⊥, 36) ∷ []) (refusal_number f)) }
    {
        // No `ok_or` and `?`: tried, the borrow checker does not cover them for this type yet.
        let Some(longest) = BusyWindow::longest(level) else {
            return Err(Refusal::NoBusyWindow);
        };
        if longest.with_overload(Combination::none()).has_late() {
            return Err(Refusal::TypicalMisses);
        }
        Ok(SafeLevel { longest })
    }

    // N: how many positions are late where every task may be overloaded.
    pub(crate) fn late_positions(&self) -> u32
        ensures { let l = self.now.longest.level.now in LateCount (M.meaning l.model.now) (table_of l.tasks.now) l.task self.now.longest.length result }
    {
        self.longest.late_positions()
    }

    // G: the greatest total of a packing of the minimal combinations.
    pub(crate) fn greatest_packing(&self, sources: &SourceList, cells: &mut [u16]) -> u16
        requires { states_of sources.now.sources ≤ length cells.old }
        ensures greatest { (b : ℕ → ℕ) → (let l = self.now.longest.level.now in
            let source = λ (j : ℕ). (j ≤ l.task) × (1 ≤ b j) in
            Gathered b (suc l.task) sources.now.sources
            → Greatest (Minimal (Fails (M.meaning l.model.now) (table_of l.tasks.now) l.task) source) source b (suc l.task) result) }
        ensures kept { let n = states_of sources.now.sources in drop n cells.new ≡ drop n cells.old }
    {
        let combinations = self.minimal(sources);
        sources.pack(combinations.as_slice(), cells)
    }
}
