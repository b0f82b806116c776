//! The rule of the queue: what its passes have put and taken.
use crossbeam_queue::protocol::{Join, Lesson, Outcome, Protocol, Split};
use crossbeam_queue::{Pass, RuledArrayQueue};
use std::collections::LinkedList;

/// What a pass has put and taken, and its parts of the right to know the whole. No value of it is
/// made.
pub struct Hand<J> {
    pub parts: u64,
    pub put: LinkedList<J>,
    pub taken: LinkedList<J>,
}

/// The rule: what all have put is what all have taken and what the queue holds.
pub struct Fair;

impl<J> Protocol<J, Hand<J>> for Fair {
    ghost use Rattle.std.specs.Prelude.{[]};
    ghost use Rattle.worker_pool.specs.calls.Hands.{hand, Balanced};

    ghost holds = { Balanced };

    ghost first = { hand 1024 [] [] };
}

/// A pass gives one of its parts to a new one, and later takes in what that one did.
pub struct Cut;

impl<J> Split<Hand<J>> for Cut {
    ghost use Rattle.std.specs.Prelude.{◌-◌, []};
    ghost use Rattle.worker_pool.specs.calls.Hands.{hand};

    ghost left = { λ v. hand (v.parts - 1) v.put v.taken };

    ghost right = { λ v. hand 1 [] [] };
}

impl<J> Join<Hand<J>> for Cut {
    ghost use Rattle.std.specs.Prelude.{[]};
    ghost use Rattle.worker_pool.specs.calls.Hands.{hand, both};

    ghost both = { both };

    ghost spent = { hand 0 [] [] };
}

/// A job is put.
pub struct Puts;

impl<J> Outcome<J, Hand<J>> for Puts {
    ghost use Rattle.std.specs.Prelude.{◌≡◌, ◌++◌, ◌∷◌, []};
    ghost use Rattle.worker_pool.specs.calls.Hands.{hand};

    ghost then = { λ v job w. w ≡ hand v.parts (v.put ++ job ∷ []) v.taken };
}

impl<J> Lesson<J, Hand<J>> for Puts {
    ghost use Rattle.std.specs.Prelude.{⊤};

    ghost fact = { λ v jobs. ⊤ };
}

/// A job is taken. Where there is none, the pass that has every part learns that all that was put
/// was taken.
pub struct Takes;

impl<J> Outcome<J, Hand<J>> for Takes {
    ghost use Rattle.std.specs.Prelude.{◌≡◌, ◌++◌, ◌∷◌, []};
    ghost use Rattle.worker_pool.specs.calls.Hands.{hand};

    ghost then = { λ v job w. w ≡ hand v.parts v.put (v.taken ++ job ∷ []) };
}

impl<J> Lesson<J, Hand<J>> for Takes {
    ghost use Rattle.std.specs.Prelude.{◌≡◌, ◌++◌};
    ghost use Rattle.worker_pool.specs.Jobs.{SameJobs};

    ghost fact = { λ v jobs. v.parts ≡ 1024 → SameJobs v.put (v.taken ++ jobs) };
}

pub type Queue<J> = RuledArrayQueue<J, Hand<J>, Fair>;

pub type Port<J> = Pass<J, Hand<J>>;
