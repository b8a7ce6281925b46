//! What holds of the run by each seed. A function does nothing, and its contract is the law.

ghost use Rattle.cml_explore.specs.{SeedLaws.{SeedRunsLead, SeedRunsEnd}, TurnLaws.{TurnsReachAll}};

/// The schedule of the run by a seed can be followed from the start, and leads to where the run stands, in each order.
pub fn a_seed_run_leads_where_it_stands()
    ensures { SeedRunsLead }
{}

/// The run by a seed is over, in each order: where it has not used the budget, no item is allowed any more.
pub fn a_seed_run_is_over()
    ensures { SeedRunsEnd }
{}

/// Each schedule that can be followed, of which no item was added once the run was over, is made by some words in the order of turns. So what
/// many workers do is among what one can be led to do.
pub fn turns_reach_all()
    ensures { TurnsReachAll }
{}
