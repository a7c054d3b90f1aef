//! The table of the clients' records.
ghost use Rattle.std.specs.Prelude.{◌≡◌, ℕ, None, length, nat_eq};
ghost use Rattle.std.specs.Map.{update};
ghost use Rattle.heap.specs.Indexed.{keys_in};
ghost use Rattle.laws.specs.ByNumber.{total, Numbered, by_number};
ghost use Rattle.pool.specs.Ends.{tick_of, end_of};
ghost use Rattle.pool.specs.Records.{shares_in, minimum_in, end_in, KeepsEnds};

use crate::ends::End;
use crate::member::Member;
use heap::IndexedHeap;

/// The records of the admitted clients, 1 to 256, in fixed memory: client c stands in place c - 1. The sum of their minimums
/// is kept besides, and the ends of their estimates, the earliest first.
#[derive(Drop)]
pub(crate) struct Members {
    table: [Option<Member>; 256],
    minimums: u64,
    ends: IndexedHeap<End, 257>,
    ghost places: { length table ≡ 256 },
    ghost summed: { minimums ≡ total (λ c. minimum_in (by_number table c)) },
    ghost ends_kept: { KeepsEnds table (end_of ends) },
}

/// The minimum in a record; where there is none, 0.
fn minimum(member: Option<Member>) -> u64
    ensures { result ≡ minimum_in member }
{
    member.map_or(0, |member| member.minimum as u64)
}

/// The end of the estimate in a record, if there is one.
fn end(member: Option<Member>) -> Option<End>
    ensures { tick_of result ≡ end_in member }
{
    let tick = member?.estimate?.end;
    Some(End { tick })
}

/// Puts the end of a client's estimate, or none, among the others.
fn set_end(ends: &mut IndexedHeap<End, 257>, client: u32, end: Option<End>)
    requires { Numbered client }
    ensures { (c : ℕ) → keys_in ends.new c ≡ update nat_eq (keys_in ends.old) client end c }
{
    match end {
        Some(end) => ends.put(client as usize, end),
        None => ends.take(client as usize),
    }
}

impl Members {
    ghost use Rattle.pool.specs.Members.{member_of, IsSetAt};
    ghost use Rattle.pool.specs.Clocks.{FindsEnded};

    /// Nobody yet.
    pub(crate) fn new() -> Members
        ensures { (c : ℕ) → member_of result c ≡ None }
    {
        Members {
            table: [None; 256],
            minimums: 0,
            ends: IndexedHeap::new(End { tick: 0 }),
        }
    }

    /// The record of a client, if it is admitted.
    pub(crate) fn get(&self, client: u32) -> Option<Member>
        ensures { result ≡ member_of self.now client }
    {
        match client {
            1..=256 => self.table[client as usize - 1],
            _ => None,
        }
    }

    /// Puts a record, or none, in a client's place.
    pub(crate) fn set(&mut self, client: u32, member: Option<Member>)
        requires { Numbered client }
        ensures { IsSetAt self.old client member self.new }
    {
        let before = self.get(client);
        self.minimums = self.minimums - minimum(before) + minimum(member);
        set_end(&mut self.ends, client, end(member));
        self.table[client as usize - 1] = member;
    }

    /// The minimums of all clients, added up.
    pub(crate) fn minimums(&self) -> u64
        ensures { result ≡ total (λ c. minimum_in (member_of self.now c)) }
    {
        self.minimums
    }

    /// The shares of all clients, added up.
    pub(crate) fn shares(&self) -> u64
        ensures { result ≡ total (λ c. shares_in (member_of self.now c)) }
    {
        let mut shares: u64 = 0;
        for member in &self.table {
            if let Some(member) = member {
                shares += member.shares as u64;
            }
        }
        shares
    }

    /// A client whose estimate ends by a tick, with its record, if there is one.
    pub(crate) fn first_ended(&self, tick: u32) -> Option<(u32, Member)>
        ensures { FindsEnded self.now tick result }
    {
        let (client, end) = self.ends.root()?;
        if end.tick > tick {
            return None;
        }
        let member = self.table[client - 1].unwrap();
        Some((client as u32, member))
    }
}
