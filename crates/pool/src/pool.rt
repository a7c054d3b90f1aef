//! The pool: frames, clients with their estimates, clock and open passage, and the calls that compare no prices.
ghost use Rattle.std.specs.Prelude.{◌≡◌, [], ◌∷◌, length};
ghost use Rattle.rules.specs.Refusals.{Replies};
ghost use Rattle.laws.specs.Broker.{new_broker, holding, share_of};
ghost use Rattle.laws.specs.Calls.{Start, Admit, Ask, Deliver, HandBack, Leave, SetEstimate, SetClock};
ghost use Rattle.laws.specs.Calls.{Done, Frame, Count, answered, Absent, slip as slip-of};
ghost use Rattle.laws.specs.Calls.{client_inputs, passage_entry, caller_entries};
ghost use Rattle.laws.specs.Questions.{client_entries};
ghost use Rattle.pool.specs.Members.{OnlyMembersHold};
ghost use Rattle.pool.specs.Clocks.{Drops, at_tick};

use crate::member::Member;
use crate::members::Members;
use ledger::Ledger;
use rules::{Admission, Estimate, Refusal, SlipNumbers};

/// The pool of one broker, in fixed memory. The frames of client c are in stack c of the ledger, and the free ones in
/// stack 0.
#[derive(Drop)]
pub struct Pool {
    unit: u32,
    tick: u32,
    asks: u64,
    passage: Option<SlipNumbers>,
    members: Members,
    ledger: Ledger,
    ghost held: { OnlyMembersHold members ledger },
}

/// A client number outside 1 to 256 is refused.
fn check_number(client: u32) -> Result<(), Refusal>
    ensures { Replies (client_inputs client) (λ _. Unit {0}) result }
{
    if !(1..=256).contains(&client) {
        return Err(Refusal::ClientOutOfRange);
    }
    Ok(())
}

impl Pool {
    ghost use Rattle.pool.specs.View.{view, IsAdmittedAs, Judges, Steps, Grants, IsNextClient};

    /// A pool without frames and clients, at tick 0.
    pub fn new() -> Pool
        ensures { view result ≡ new_broker }
    {
        Pool {
            unit: 0,
            tick: 0,
            asks: 0,
            passage: None,
            members: Members::new(),
            ledger: Ledger::new(),
        }
    }

    /// Gives a new pool its unit number, 1 to 999, and its frames, 1 to 4,096, all of them free. Numbers out of range
    /// are refused, and then a pool that has frames already.
    pub fn start(&mut self, unit: u32, frames: u32) -> Result<(), Refusal>
        ensures { Steps self.old (Start unit frames) (answered (λ _. Done) result) self.new }
    {
        if !(1..=4_096).contains(&frames) || !(1..=999).contains(&unit) {
            return Err(Refusal::PoolOutOfRange);
        }
        let Ok(()) = self.ledger.start(frames as u16) else {
            return Err(Refusal::AlreadyStarted);
        };
        self.unit = unit;
        Ok(())
    }

    /// An open passage is refused: most calls wait for its slip.
    fn no_passage(&self) -> Result<(), Refusal>
        ensures { Replies (passage_entry (view self.now) ∷ []) (λ _. Unit {0}) result }
    {
        if self.passage.is_some() {
            return Err(Refusal::PassageOpen);
        }
        Ok(())
    }

    /// What an admission is refused for.
    fn admissible(&self, asked: Admission) -> Result<(), Refusal>
        ensures { Judges self.now (Admit asked) (λ _. Unit {0}) result }
    {
        let Admission {
            client,
            shares,
            class,
            minimum,
            maximum,
        } = asked;
        check_number(client)?;
        if !(1..=1_000_000).contains(&shares) {
            return Err(Refusal::SharesOutOfRange);
        }
        if class > 9 {
            return Err(Refusal::ClassOutOfRange);
        }
        if maximum == 0 || maximum < minimum {
            return Err(Refusal::MaximumOutOfRange);
        }
        self.no_passage()?;
        if self.members.get(client).is_some() {
            return Err(Refusal::AlreadyAdmitted);
        }
        let frames = self.ledger.frames() as u32;
        if maximum > frames {
            return Err(Refusal::MaximumAboveFrames);
        }
        if self.members.minimums() + minimum as u64 > frames as u64 {
            return Err(Refusal::MinimumsAboveFrames);
        }
        Ok(())
    }

    /// Admits a client, 1 to 256, under its terms: shares of 1 to 1,000,000, a class of 0 to 9, a minimum and a maximum
    /// of frames. It starts with no frame and no estimate. Numbers out of range are refused, in this order (a maximum of 0 or
    /// below the minimum as well), then any client while a passage is open, one that is admitted already, a maximum above the
    /// frames, and a minimum with which all minimums together would exceed them.
    pub fn admit(&mut self, asked: Admission) -> Result<(), Refusal>
        ensures { Steps self.old (Admit asked) (answered (λ _. Done) result) self.new }
    {
        self.admissible(asked)?;
        let member = Member {
            shares: asked.shares,
            class: asked.class,
            minimum: asked.minimum,
            maximum: asked.maximum,
            estimate: None,
        };
        self.members.set(asked.client, Some(member));
        Ok(())
    }

    /// The record of a client that may call: while no passage is open, and the client is admitted.
    fn caller(&self, client: u32) -> Result<Member, Refusal>
        ensures { Replies (caller_entries (view self.now) client) (IsAdmittedAs self.now client) result }
    {
        check_number(client)?;
        self.no_passage()?;
        self.member(client)
    }

    /// The record of a client that may ask. A client number outside 1 to 256 is refused, then any client while a
    /// passage is open, one that is not admitted, and one that holds its maximum.
    pub fn asker(&self, client: u32) -> Result<Member, Refusal>
        ensures { Judges self.now (Ask client) (IsAdmittedAs self.now client) result }
    {
        let member = self.caller(client)?;
        if self.frames_of(client) >= member.maximum {
            return Err(Refusal::AtMaximum);
        }
        Ok(member)
    }

    /// Grants an admitted client the top frame of another client's stack, or for 0 of the free stack: counts the ask and
    /// opens its passage. Where no frame lies there, or the stack is the client's own, nothing is granted and nothing
    /// changes.
    pub fn grant(&mut self, client: u32, from: u32) -> Option<SlipNumbers>
        requires { Absent (view self.old) client → ⊥ }
        ensures { Grants (view self.old) client from result (view self.new) }
    {
        let frame = self.ledger.move_top(from as usize, client as usize)?;
        let slip = SlipNumbers {
            unit: self.unit,
            client,
            frame: frame as u32,
            former: from,
            asks: self.asks.wrapping_add(1),
        };
        self.asks = slip.asks;
        self.passage = Some(slip);
        Some(slip)
    }

    /// Closes the open passage, where these are the numbers of its slip. Any others are refused, and all while no passage is
    /// open.
    pub fn close(&mut self, slip: SlipNumbers) -> Result<(), Refusal>
        ensures { Steps self.old (Deliver slip) (answered (λ _. Done) result) self.new }
    {
        if self.passage != Some(slip) {
            return Err(Refusal::NotTheOpenSlip);
        }
        self.passage = None;
        Ok(())
    }

    /// Hands the top frame of a client's stack back to the free frames, and returns it. A client number outside 1 to 256
    /// is refused, then any client while a passage is open, one that is not admitted, and one that holds no frame.
    pub fn hand_back(&mut self, client: u32) -> Result<u32, Refusal>
        ensures { Steps self.old (HandBack client) (answered Frame result) self.new }
    {
        self.caller(client)?;
        let Some(frame) = self.ledger.move_top(client as usize, 0) else {
            return Err(Refusal::HoldsNoFrame);
        };
        Ok(frame as u32)
    }

    /// Lets a client go and frees its frames, the top one first, and returns how many. A client number outside 1 to 256 is
    /// refused, then any client while a passage is open, and one that is not admitted.
    pub fn leave(&mut self, client: u32) -> Result<u32, Refusal>
        ensures { Steps self.old (Leave client) (answered Count result) self.new }
    {
        self.caller(client)?;
        let frames = self.ledger.release(client as usize);
        self.members.set(client, None);
        Ok(frames as u32)
    }

    /// The record of a client whose estimate may be set.
    fn estimable(&self, client: u32, estimate: Estimate) -> Result<Member, Refusal>
        ensures { Judges self.now (SetEstimate client estimate) (IsAdmittedAs self.now client) result }
    {
        let member = self.caller(client)?;
        if estimate.active > self.ledger.frames() as u32 {
            return Err(Refusal::ActiveAboveFrames);
        }
        if estimate.end <= self.tick {
            return Err(Refusal::EndNotAfterClock);
        }
        Ok(member)
    }

    /// Sets how many frames a client says it uses, and the tick at which that ends, in place of an earlier estimate. A
    /// client number outside 1 to 256 is refused, then any client while a passage is open, one that is not admitted, an
    /// active count above the frames, and an end at or before the clock.
    pub fn estimate(&mut self, client: u32, estimate: Estimate) -> Result<(), Refusal>
        ensures { Steps self.old (SetEstimate client estimate) (answered (λ _. Done) result) self.new }
    {
        let mut member = self.estimable(client, estimate)?;
        member.estimate = Some(estimate);
        self.members.set(client, Some(member));
        Ok(())
    }

    /// Whether the clock may be set to a tick. Any tick is refused while a passage is open, and then one before the clock.
    pub fn clockable(&self, tick: u32) -> Result<(), Refusal>
        ensures { Judges self.now (SetClock tick) (λ _. Unit {0}) result }
    {
        self.no_passage()?;
        if tick < self.tick {
            return Err(Refusal::TickBeforeClock);
        }
        Ok(())
    }

    /// Drops an estimate that ends by this tick, if there is one, and returns whose it was.
    pub fn drop_ended(&mut self, tick: u32) -> Option<u32>
        ensures { Drops tick (view self.old) result (view self.new) }
    {
        let (client, mut member) = self.members.first_ended(tick)?;
        member.estimate = None;
        self.members.set(client, Some(member));
        Some(client)
    }

    /// Sets the clock, and nothing else.
    pub fn set_tick(&mut self, tick: u32)
        ensures { view self.new ≡ at_tick (view self.old) tick }
    {
        self.tick = tick;
    }

    /// The record of a client. A client number outside 1 to 256 is refused, and then a client that is not admitted.
    pub fn member(&self, client: u32) -> Result<Member, Refusal>
        ensures { Replies (client_entries (view self.now) client) (IsAdmittedAs self.now client) result }
    {
        check_number(client)?;
        self.members.get(client).ok_or(Refusal::NotAdmitted)
    }

    /// How many frames a client holds. A client number outside 1 to 256 is refused, and then a client that is not admitted.
    pub fn holding(&self, client: u32) -> Result<u32, Refusal>
        ensures { Replies (client_entries (view self.now) client) (λ n. n ≡ holding (view self.now) client) result }
    {
        self.member(client)?;
        Ok(self.frames_of(client))
    }

    /// How many frames a client holds, without a test of its number; one that is not admitted holds none.
    pub fn frames_of(&self, client: u32) -> u32
        ensures { result ≡ holding (view self.now) client }
    {
        match client {
            0 => 0,
            _ => self.ledger.holding(client as usize) as u32,
        }
    }

    /// A client's proportional share of the frames, rounded down. A client number outside 1 to 256 is refused, and then a
    /// client that is not admitted.
    pub fn proportional_share(&self, client: u32) -> Result<u32, Refusal>
        ensures { Replies (client_entries (view self.now) client) (λ n. n ≡ share_of (view self.now) client) result }
    {
        let member = self.member(client)?;
        let all = self.members.shares();
        Ok((self.ledger.frames() as u64 * member.shares as u64 / all) as u32)
    }

    /// How many frames are free.
    pub fn free_frames(&self) -> u32
        ensures { result ≡ length (view self.now).free }
    {
        self.ledger.holding(0) as u32
    }

    /// The lowest number above this one that an admitted client has, if any has one.
    pub fn next_client(&self, after: u32) -> Option<u32>
        ensures { IsNextClient (view self.now) after result }
    {
        for client in after.saturating_add(1)..257 {
            if self.members.get(client).is_some() {
                return Some(client);
            }
        }
        None
    }
}
