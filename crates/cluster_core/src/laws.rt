//! The laws of the clusters that have made a list of steps, each the clause of a function with an empty body.

ghost use Rattle.cluster_core.specs.Laws.{ClusterKeyOnceLanded, OneAnswer, SameClusterKeys, SameSteps};

/// If some list of a plan's steps leads to both clusters, every list that leads to one leads to the other. No premise.
pub fn same_steps()
    ensures { SameSteps }
{}

/// Two clusters that have made one common list of steps of a plan have the same key. No premise.
pub fn same_keys()
    ensures { SameClusterKeys }
{}

/// If a landing is answered `landed`, the key without that write is the key after it. It is that of each cluster that
/// has made the same steps and the landing after them. No premise.
pub fn key_once_landed()
    ensures { ClusterKeyOnceLanded }
{}

/// The answer with which the log goes on after a list of steps is the one that it gives to the step: there is no other.
/// So that is what [`Cluster::step`](crate::Cluster::step) answers, whatever steps the cluster has made. No premise.
pub fn one_answer()
    ensures { OneAnswer }
{}
