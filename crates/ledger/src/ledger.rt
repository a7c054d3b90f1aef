//! The ledger, which keeps its stacks as links between frames.
ghost use Rattle.std.specs.Prelude.{◌≡◌, ℕ, ◌+◌, ◌<◌, ◌≤◌, ◌≢◌, [], length, slice_index, IfOk, IfErr};
ghost use Rattle.ledger.specs.Stacks.{Once, Freed};
ghost use Rattle.ledger.specs.Links.{stack, together};

/// Where an owner's stack begins, and how many frames it has. The top of a stack without frames is no frame's.
#[derive(Clone, Copy)]
struct Stack {
    top: u16,
    len: u16,
}

/// The stacks of all owners. Each of the frames 1 to `frames` lies in exactly one of them, once, and nothing else does.
// Owner 0 has the free stack, so that frames move from it and to it as with any other: an `Option` of an owner would make
// two cases of each move.
#[derive(Drop)]
pub struct Ledger {
    frames: u16,
    stacks: [Stack; 257],
    // The frame below each frame; place 0 is no frame's.
    below: [u16; 4_097],
    ghost few: { frames ≤ 4_096 },
    ghost owners: { length stacks ≡ 257 },
    ghost links: { length below ≡ 4_097 },
    ghost all: { together stacks ≡ frames },
    ghost once: { Once (stack below stacks) 257 frames },
}

/// The ledger has frames already, so it is not started again.
#[derive(Clone, Copy)]
pub struct HasFrames;

/// Links each frame from 1 on to the next.
// The frame itself is the index, since nothing can be proved about places written through `zip`.
fn link_down(below: &mut [u16], frames: u16)
    requires { (frames < length below.old) × (frames ≤ 4_096) }
    ensures { (f : ℕ) → 1 ≤ f → f ≤ frames → slice_index below.new f ≡ f + 1 }
{
    for frame in 1..=frames {
        below[frame as usize] = frame + 1;
    }
}

impl Ledger {
    ghost use Rattle.ledger.specs.Ledgers.{stack_of, Started, MovesTop};

    /// A ledger of no frames.
    pub fn new() -> Ledger
        ensures frames { result.frames ≡ 0 }
        ensures stacks { (o : ℕ) → stack_of result o ≡ [] }
    {
        Ledger {
            frames: 0,
            stacks: [Stack { top: 0, len: 0 }; 257],
            below: [0; 4_097],
        }
    }

    /// How many frames there are, in all stacks together.
    pub fn frames(&self) -> u16
        ensures { result ≡ self.now.frames }
    {
        self.frames
    }

    /// How many frames an owner has.
    pub fn holding(&self, owner: usize) -> u16
        ensures { result ≡ length (stack_of self.now owner) }
    {
        self.stacks.get(owner).map_or(0, |stack| stack.len)
    }

    /// Puts the frames 1 to `frames`, at most 4,096, into the free stack, 1 on top and the last at the bottom. A ledger
    /// that has frames already is left as it was.
    pub fn start(&mut self, frames: u16) -> Result<(), HasFrames>
        requires { frames ≤ 4_096 }
        ensures started { IfOk result (λ _. Started self.old self.new frames) }
        ensures refused { IfErr result (λ _. (self.new ≡ self.old) × (0 < self.old.frames)) }
    {
        if self.frames > 0 {
            return Err(HasFrames);
        }
        link_down(&mut self.below, frames);
        self.stacks[0] = Stack {
            top: 1,
            len: frames,
        };
        self.frames = frames;
        Ok(())
    }

    /// Moves the top frame of one owner's stack onto another's, and returns it. None is moved where the first has none,
    /// or where there is no other owner to take it.
    #[tactic(auto, using(crate::proofs::Moves::of_giver))]
    pub fn move_top(&mut self, from: usize, to: usize) -> Option<u16>
        ensures moved { MovesTop self.old self.new from to result }
        ensures frames { self.new.frames ≡ self.old.frames }
    {
        if from == to || to > 256 || self.holding(from) == 0 {
            return None;
        }
        let giver = self.stacks[from];
        let taker = self.stacks[to];
        let frame = giver.top;
        self.stacks[from] = Stack {
            top: self.below[frame as usize],
            len: giver.len - 1,
        };
        self.stacks[to] = Stack {
            top: frame,
            len: taker.len + 1,
        };
        self.below[frame as usize] = taker.top;
        Some(frame)
    }

    /// Moves all frames of an owner, the top one first, each onto the free stack, and returns how many. Frames that are
    /// free already stay as they are.
    pub fn release(&mut self, owner: usize) -> u16
        ensures freed { (owner ≢ 0) → Freed (stack_of self.old) (stack_of self.new) owner result }
        ensures stays { owner ≡ 0 → (result ≡ 0) × (self.new ≡ self.old) }
        ensures frames { self.new.frames ≡ self.old.frames }
    {
        let mut released = 0;
        while self.move_top(owner, 0).is_some() {
            released += 1;
        }
        released
    }
}
