//! Rounds of two works of which one lacks memory.

ghost use Rattle.std.specs.Prelude.{[]};
ghost use Rattle.step_kinds.specs.declared.names.Side.TheVariants.{A};

use cluster_run::rounds::{RoundWork, finished};
use std::alloc::{AllocError, Global};
use std::test::Fail;

/// After this many rounds a work is over.
const ROUNDS: u32 = 4;

/// A work that counts its rounds.
#[derive(Drop)]
struct Counted {
    rounds: u32,
    is_over: bool,
    is_wanting: bool,
}

impl Counted {
    fn new(is_wanting: bool) -> Counted {
        Counted {
            rounds: 0,
            is_over: false,
            is_wanting,
        }
    }

    fn pass(&mut self) {
        self.rounds = self.rounds.saturating_add(1);
        self.is_over = self.rounds >= ROUNDS;
    }
}

impl RoundWork for Counted {
    ghost key = { λ _. record { name = record { pair = 0; from = A; queue = 0 }; number = 0; entries = 2; losses = 0; traffic = [] } };

    ghost over = { λ work. work.is_over };

    fn is_over(&self) -> bool {
        self.is_over
    }

    fn is_cut(&self) -> bool {
        false
    }

    fn is_wanting(&self) -> bool {
        self.is_wanting
    }

    fn renewed(self, _alloc: Global) -> Result<Counted, AllocError> {
        Ok(self)
    }
}

// That one work lacks memory is told, though the other goes on.
#[test]
fn want_is_told(rt: HostRuntime) -> Result<(), Fail> {
    let works = vec![in rt.alloc(); Counted::new(false), Counted::new(true)]?;
    let done = finished(
        &rt,
        rt.alloc(),
        works,
        &|_, work: &mut Counted| work.pass(),
        &|_, work: &mut Counted| work.pass(),
    );
    assert!(rt; done.is_err());
    Ok(())
}
