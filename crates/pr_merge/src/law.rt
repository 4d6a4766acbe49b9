// What holds of the merged order. Each law is the contract of a function that does nothing.
ghost use Rattle.pr_merge.specs.Merged.{NoneTwice, OneMerged};
ghost use Rattle.pr_merge.specs.Phases.{MergedStandByTime, PhasesMerge, TimeKeepsOrders};

/// The parts determine the merged order.
pub fn one_merged_order()
    ensures { OneMerged }
{}

/// No place stands twice in the merged order.
pub fn no_place_stands_twice()
    ensures { NoneTwice }
{}

/// Where each node's entries and each job's entries rise in time, the order by time, then node, keeps the order of
/// each node and of each job.
pub fn order_by_time_keeps_nodes_and_jobs()
    ensures { TimeKeepsOrders }
{}

/// The entries at the places that `merge` gives, of each node's own list, stand by time, then node.
pub fn merged_entries_stand_by_time()
    ensures { MergedStandByTime }
{}

/// Entries that stand by time, then node, are a phase of the jobs that made them, and keep a history valid where these
/// share no client and no stream and each node's and each job's are lawful after it.
pub fn jobs_by_time_are_a_phase()
    ensures { PhasesMerge }
{}
