// The worked figures of the spread.
ghost use Rattle.spread.specs.Figures.{Figures as Worked};

// Nothing is done: the contract has the figures proved, as one list.
#[tactic(auto, unfolding(crate::specs::Shares::share, crate::specs::Shares::part, crate::specs::Shares::running, crate::specs::Shares::spread_fault))]
pub fn figures_hold()
    ensures { Worked }
{}
