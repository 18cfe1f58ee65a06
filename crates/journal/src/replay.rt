//! Who takes the frames of a store, without the journal knowing what they say.
ghost use Rattle.std.specs.Prelude.{◌≡◌, ◌⊎◌, ◌≤◌, ◌+◌, List, ℕ, Bool, length, IsErrOf, IfOk, OnErr};
ghost use Rattle.journal.specs.declared.replay.ReplayFault.TheVariants.{Bad};

/// Why a frame was not taken.
#[derive(Clone, Copy, Debug, PartialEq, Eq)]
pub enum ReplayFault {
    /// The body's first fault is at this offset in it.
    Bad(u64),
    /// A growth of memory was refused.
    NoMemory,
}

/// A value that stands for a state, and takes the frames of a store in their order.
pub trait Replay {
    // the states that a value may stand for, and what it stands for
    ghost State: { Type 0 };

    ghost state: { Self → State };

    // the state of a store without frames
    ghost empty: { State };

    // what bodies are read by, which no call changes: rules that are no part of the state
    ghost Rules: { Type 0 };

    ghost rules: { Self → Rules };

    // what a frame of this kind and body makes of a state, and how many changes it has
    ghost takes: { Rules → State → Bool → List ℕ → State → ℕ → Type 0 };

    // the offset of a body's first fault
    ghost refuses: { Rules → State → Bool → List ℕ → ℕ → Type 0 };

    /// Stands for the empty state again.
    fn begin(&mut self)
        ensures empty { state self.new ≡ empty }
        ensures rules { rules self.new ≡ rules self.old };

    /// Takes a frame, a snapshot or changes, and answers how many changes it has. After a refusal
    /// it stands for the empty state.
    fn frame(&mut self, snapshot: bool, body: &[u8]) -> Result<u64, ReplayFault>
        ensures takes { IfOk result
            (λ n. takes (rules self.old) (state self.old) snapshot body.now (state self.new) n) }
        ensures refuses { (o : ℕ) → IsErrOf result (Bad o)
            → refuses (rules self.old) (state self.old) snapshot body.now o }
        ensures within { (o : ℕ) → IsErrOf result (Bad o) → o ≤ length body.now }
        ensures anew { OnErr result (state self.new ≡ empty) }
        ensures rules { rules self.new ≡ rules self.old };

    // A frame leads from a state to one state, by one number of changes.
    ghost one_state: { (by : Rules) (s : State) (kind : Bool) (body : List ℕ) (t u : State)
        (m n : ℕ) → takes by s kind body t m → takes by s kind body u n → t ≡ u };

    ghost one_count: { (by : Rules) (s : State) (kind : Bool) (body : List ℕ) (t u : State)
        (m n : ℕ) → takes by s kind body t m → takes by s kind body u n → m ≡ n };

    // A body has one first fault, and none where the frame is taken.
    ghost one_fault: { (by : Rules) (s : State) (kind : Bool) (body : List ℕ) (o p : ℕ)
        → refuses by s kind body o → refuses by s kind body p → o ≡ p };

    ghost apart: { (by : Rules) (s : State) (kind : Bool) (body : List ℕ) (t : State) (n o : ℕ)
        → takes by s kind body t n → refuses by s kind body o → ⊥ };

    // A body is taken or refused.
    ghost either: { (by : Rules) (s : State) (kind : Bool) (body : List ℕ)
        → ((t : State) × (n : ℕ) × takes by s kind body t n)
        ⊎ ((o : ℕ) × refuses by s kind body o) };
}
