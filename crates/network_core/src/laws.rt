//! The laws of runs of the network, as contracts of functions that do nothing.
//!
//! A crate above uses a law by calling its function. The caller chooses which dots matter, to each node and in each
//! message. A law that speaks of such dots holds for any choice, or says for which.
ghost use Rattle.network_core.specs.AlikeSteps.{StepLaw, StepsLaw};
ghost use Rattle.network_core.specs.Cones.{AloneLaw, ConeLaw, IdleLaw, StandsLaw};
ghost use Rattle.network_core.specs.EasySteps.{EagerLaw, EagerStepLaw};
ghost use Rattle.network_core.specs.Keys.{StandAlikeLaw};
ghost use Rattle.network_core.specs.Made.{FreshLaw, MadeLaw, WantedLaw};
ghost use Rattle.network_core.specs.OwnSteps.{OwnLaw};
ghost use Rattle.network_core.specs.Room.{NeverFullLaw};
ghost use Rattle.network_core.specs.Rows.{OnlineRowsLaw, RowsLaw};
ghost use Rattle.network_core.specs.Seen.{SameReplicaLaw, SeenLaw};
ghost use Rattle.network_core.specs.Settling.{LengthLaw, NextDeliveryLaw, QuietLaw, SettleLaw};

/// Unless a step is refused as `EntriesFull`, a delivery at a node can be exchanged with another step of the node: the
/// node's replica becomes the same either way. The other step is a join, a leave, a leave all, an update, a broadcast,
/// a request, or an up or a down of a name that the node knows. The delivery changes neither whether a join, a leave, a
/// leave all or an update is refused, nor what a broadcast or a request sends.
pub fn own_law()
    ensures { OwnLaw }
{}

/// If steps make no more entries together than a node may hold, none of them is refused as `EntriesFull`, in whatever
/// order they come.
pub fn never_full_law()
    ensures { NeverFullLaw }
{}

/// An easy step (see `is_easy` of `network_rules`) can be moved before any steps directly before it, and the run still
/// ends in the same cluster, if each of these steps is a delivery at the easy step's node or a step of another node,
/// and no step is then refused as `EntriesFull`. So in a run of the network that makes no more entries than a node may
/// hold, a node's next step other than a delivery can come at once if it is easy: some run of the network with the same
/// beginning and then this step ends in the same cluster.
pub fn easy_law()
    ensures in_runs { EagerLaw }
    ensures in_network_runs { EagerStepLaw }
{}

/// Let what matters after a step come from what matters before it. Then two clusters that are alike in the dots that
/// matter both take the step and are alike again, or both refuse it with the same fault, or one refuses it as
/// `EntriesFull`. So if one of them takes several such steps in turn, the other takes them, too, and both end alike,
/// unless the other refuses one as `EntriesFull`.
pub fn alike_law()
    ensures step { StepLaw }
    ensures steps { StepsLaw }
{}

/// Each entry in a run of the network was made by a join or an update of the node that its dot names. The dot follows
/// from that node's steps other than deliveries, which are those of the recorded run. So the recorded run tells which
/// entries there can be.
pub fn made_law()
    ensures made { MadeLaw }
    ensures wanted { WantedLaw }
    ensures fresh { FreshLaw }
{}

/// Each dot that a node has seen at the end of a run was taken by a step of the node that the dot names. If a node's
/// replicas at the ends of two runs of the network differ at most in dots that no step of the recorded run takes, they
/// are the same.
pub fn seen_law()
    ensures seen { SeenLaw }
    ensures same { SameReplicaLaw }
{}

/// If two replicas differ at most in dots at which neither has an entry of a topic and a key, they show the same rows
/// with that topic and key, both in the order of the dots and in their online lists.
pub fn rows_law()
    ensures shown { RowsLaw }
    ensures online { OnlineRowsLaw }
{}

/// `passes`: if what matters after each step of the recorded run comes from what matters before the step, the same is
/// true of each run of the network.
///
/// `stands`: let the recorded run also make no more entries than a node may hold. Then one beginning of a run serves
/// for another if the same steps are left to take after both and the clusters are alike: for each run with the other
/// beginning, some run with this one ends in an alike cluster.
///
/// `idle`: under the same two conditions, a delivery can come at once if it is accepted, brings nothing that matters,
/// and came less often than it was recorded: for each run that goes on from the beginning, some run that goes on from
/// it with this delivery ends in an alike cluster.
///
/// `alone`: without either of the two conditions, a node's next step can come at once if it is accepted and nothing
/// more is delivered at the node: the cluster at the end is the same.
pub fn cone_law()
    ensures passes { ConeLaw }
    ensures stands { StandsLaw }
    ensures idle { IdleLaw }
    ensures alone { AloneLaw }
{}

/// If each node took the same steps other than deliveries in two runs, and the dots that matter stand the same at both
/// ends, the clusters there are alike.
pub fn stand_alike_law()
    ensures { StandAlikeLaw }
{}

/// Call a beginning of a run settled if each run of the network that begins so ends in an outcome that was found. Let
/// the recorded run make no more entries than a node may hold, let what matters after each of its steps come from what
/// matters before the step, and of two alike ends let both or neither count as found. Then a beginning is settled in
/// each of these cases: it is settled with one more step, and that step can come at once (see `easy_law` and
/// `cone_law`); another beginning serves for it, and that one is settled; or it is settled with each accepted step that
/// can come next, and its own cluster counts as found if a run may end there. If the last step is a delivery, the
/// step's number makes no difference. A run of the network has at most as many steps as the recorded run, and one more
/// for each delivery that may come a second time.
pub fn settle_law()
    ensures settled { SettleLaw }
    ensures length { LengthLaw }
{}

/// Let a delivery of a message at a node come next in a run of the network, and let the recorded run have n deliveries
/// of that message at that node. Then n is at least 1, and fewer than 2n of them came before; fewer than n, if none may
/// come a second time. If all recorded deliveries at a node have come, and none may come a second time, nothing more is
/// delivered there; nor if none was recorded there.
pub fn next_law()
    ensures quiet { QuietLaw }
    ensures next { NextDeliveryLaw }
{}
