// The items of a job's tape lines.
ghost use Rattle.std.specs.Prelude.{◌≡◌, length};

use crate::replies::{DECLINED, Reply};
use arrayvec::ArrayVec;

// 01: "At most 512 lines of each tape kind".
const MOST: usize = 512;

// The items taken so far, as many for each mask tape.
#[derive(Drop)]
pub struct TapeLines {
    pub m0: ArrayVec<u64, MOST>,
    pub m1: ArrayVec<u64, MOST>,
    pub m2: ArrayVec<u64, MOST>,
    pub dealer: ArrayVec<u64, MOST>,
    ghost one: { length m1.items ≡ length m0.items },
    ghost two: { length m2.items ≡ length m0.items },
}

impl TapeLines {
    ghost use Rattle.std.specs.Prelude.{List, ℕ};
    ghost use Rattle.gate.specs.Places.{Place};
    ghost use Rattle.machine.specs.declared.registers.Machine.{Machine};
    ghost use Rattle.session.specs.Kept.{tapes_in};
    ghost use Rattle.session.specs.Outputs.{item_taken, masks_taken, no_tapes, state, turned};

    // No line yet. No derived Default: a struct with ghost fields can't have one.
    pub fn new() -> TapeLines
        ensures { tapes_in result ≡ no_tapes }
    {
        TapeLines {
            m0: ArrayVec::new(),
            m1: ArrayVec::new(),
            m2: ArrayVec::new(),
            dealer: ArrayVec::new(),
        }
    }

    // 01: "Kind 0 adds t0,t1,t2 to the strands".
    pub fn add_masks(&mut self, t0: u64, t1: u64, t2: u64) -> Option<Reply>
        ensures { (m : Machine) (c : Place → List ℕ) → turned (state m (tapes_in self.new) c) result
            ≡ masks_taken (state m (tapes_in self.old) c) t0 t1 t2 }
    {
        if self.m0.is_full() {
            return Some(DECLINED);
        }
        self.m0.push(t0);
        self.m1.push(t1);
        self.m2.push(t2);
        None
    }

    // 01: "kind 10 adds one dealer item". It is no case of `add_masks`: that takes three items, and fills three.
    pub fn add_item(&mut self, item: u64) -> Option<Reply>
        ensures { (m : Machine) (c : Place → List ℕ) → turned (state m (tapes_in self.new) c) result
            ≡ item_taken (state m (tapes_in self.old) c) item }
    {
        if self.dealer.is_full() {
            return Some(DECLINED);
        }
        self.dealer.push(item);
        None
    }
}
