//! A cluster, as a search drives it.

ghost use Rattle.cluster_core.specs.Cluster.{ClusterState, plan_held as plan_of_cluster};
ghost use Rattle.cluster_core.specs.InFlight.{cluster_key_of as key_of_cluster, key_without as key_of_cluster_without};
ghost use Rattle.explore_command.specs.Answers.{has_made as cluster_has_made};
ghost use Rattle.cluster_core.proofs.Facade.{same_keys as clusters_have_same_keys, same_steps as clusters_have_same_steps};

use cluster_core::Cluster;
use explore_model::Landing;
use explore_search::Machine;
use std::alloc::{AllocError, Global};
use std::marker::Model;
use step_kinds::{Answer, Plan, Side, Step};

/// A cluster that a search copies, or makes anew along a path. Contracts see the cluster.
#[derive(Drop)]
pub struct PathCluster {
    cluster: Cluster,
}

impl Model for PathCluster {
    ghost Value = { ClusterState };

    ghost view = { λ path. path.cluster };
}

impl Machine for PathCluster {
    ghost has_made = { cluster_has_made };

    ghost plan_held = { plan_of_cluster };

    ghost key_of = { key_of_cluster };

    ghost key_without = { λ cluster landing. key_of_cluster_without cluster landing.pair landing.side landing.place };

    fn fresh(alloc: Global, plan: &Plan) -> Result<PathCluster, AllocError> {
        Ok(PathCluster {
            cluster: Cluster::new(alloc, plan)?,
        })
    }

    fn copy_of(&self, alloc: Global) -> Result<PathCluster, AllocError> {
        Ok(PathCluster {
            cluster: self.cluster.copy_of(alloc)?,
        })
    }

    fn step(&mut self, step: &Step) -> Result<Answer, AllocError> {
        self.cluster.step(step)
    }

    fn is_same(&self, other: &PathCluster) -> bool {
        self.cluster.is_same(&other.cluster)
    }

    fn lands_as(&self, landing: Landing, other: &PathCluster) -> bool {
        let place = landing.place as usize;
        self.cluster
            .lands_as(landing.pair, landing.side, place, &other.cluster)
    }

    fn in_flight(&self, pair: u32, side: Side) -> usize {
        self.cluster.in_flight(pair, side)
    }

    fn push_key(&self, key: &mut Vec<u8>) -> Result<(), AllocError> {
        self.cluster.push_key(key)
    }

    fn push_key_without(&self, landing: Landing, key: &mut Vec<u8>) -> Result<(), AllocError> {
        let place = landing.place as usize;
        self.cluster
            .push_key_without(landing.pair, landing.side, place, key)
    }

    ghost same_steps = { clusters_have_same_steps };

    ghost same_keys = { clusters_have_same_keys };
}
