//! The heap, as functions over a borrowed slice of records.
ghost use Rattle.std.specs.Prelude.{◌≡◌, ◌+◌, ◌*◌, ◌<◌, ◌≢◌, length, is_some, Some, None};
ghost use Rattle.std.specs.Option.{option_map};
ghost use Rattle.heap.specs.Heaps.{Heap, IsRoot, Changed, IsIndexed, keys, owner_at, key_at, none_first};
ghost use Rattle.heap.specs.Steps.{OwnerPlaced, OwnersSwapped, Gap, Rises, Sinks, IsFirstChild, Sifted};

use super::Order;

/// One record serves two: record i names the owner at place i of the heap, and notes the key and the place of owner i.
/// Places run from the root, 0, and the children of place i are 2 i + 1 and 2 i + 2. No owner's key leads that of its
/// parent unless the two tie.
#[derive(Clone, Copy)]
pub struct Record<K> {
    /// The key of owner i.
    pub key: K,
    /// The owner at place i.
    pub owner: usize,
    /// The place of owner i.
    pub place: usize,
}

/// An owner whose key no key in the heap precedes, with that key, or none where nobody is in.
#[tactic(auto, using(crate::proofs::Parts::first))]
pub fn root<K: Order>(records: &[Record<K>], count: usize) -> Option<(usize, &K)>
    requires { Heap K.Order.leads records.now count }
    ensures { IsRoot K.Order.leads (length records.now) (keys records.now count) result }
{
    let owner = records[..count].first()?.owner;
    Some((owner, &records[owner].key))
}

/// The key of an owner, if it is in.
#[tactic(auto, using(crate::proofs::Members::reads), unfolding(crate::specs::Heaps::keys, crate::specs::Heaps::is_in))]
pub fn key<K: Order>(records: &[Record<K>], count: usize, owner: usize) -> Option<&K>
    requires { Heap K.Order.leads records.now count }
    ensures { option_map (λ x. x.now) result ≡ keys records.now count owner }
{
    let record = records.get(owner)?;
    (record.place < count && records[record.place].owner == owner).then_some(&record.key)
}

/// Whether an owner is in.
pub fn contains<K: Order>(records: &[Record<K>], count: usize, owner: usize) -> bool
    requires { Heap K.Order.leads records.now count }
    ensures { result ≡ is_some (keys records.now count owner) }
{
    key(records, count, owner).is_some()
}

/// Gives an owner this key, whether or not it was in, and returns how many are in then.
pub fn put<K: Order + Drop>(records: &mut [Record<K>], count: usize, owner: usize, key: K) -> usize
    requires { Heap K.Order.leads records.old count × (owner < length records.old) }
    ensures { Changed K.Order.leads records.old count records.new result owner (Some key) }
{
    let was_in = contains(records, count, owner);
    records[owner].key = key;
    if was_in {
        let place = records[owner].place;
        sift(records, count, place);
        count
    } else {
        place_owner(records, count, owner);
        sift_up(records, count + 1, count);
        count + 1
    }
}

/// Takes an owner out, if it is in, and returns how many are in then. The owner at the last place then fills the gap.
#[tactic(auto, using(crate::proofs::Members::reads))]
pub fn take<K: Order>(records: &mut [Record<K>], count: usize, owner: usize) -> usize
    requires { Heap K.Order.leads records.old count }
    ensures { Changed K.Order.leads records.old count records.new result owner None }
{
    if !contains(records, count, owner) {
        return count;
    }
    let place = records[owner].place;
    let last = count - 1;
    if place < last {
        swap_owners(records, place, last);
        sift(records, last, place);
    }
    last
}

/// Brings the owner at place i, whose key alone may be out of order, to where it belongs.
fn sift<K: Order>(records: &mut [Record<K>], count: usize, i: usize)
    requires within { IsIndexed records.old count × (i < count) }
    requires gap { Gap (none_first K.Order.leads) (key_at records.old) i count }
    ensures { Sifted K.Order.leads records.old records.new count }
{
    if i > 0 && !leads_at(records, count, (i - 1) / 2, i) {
        sift_up(records, count, i);
    } else {
        sift_down(records, count, i);
    }
}

/// Moves the owner at place i up past those whose keys come later.
fn sift_up<K: Order>(records: &mut [Record<K>], count: usize, i: usize)
    requires within { IsIndexed records.old count × (i < count) }
    requires rises { Rises (none_first K.Order.leads) (key_at records.old) i count }
    ensures { Sifted K.Order.leads records.old records.new count }
{
    let mut at = i;
    // The place halves at each turn, and no range has such places.
    while at > 0 {
        let parent = (at - 1) / 2;
        if leads_at(records, count, parent, at) {
            return;
        }
        swap_owners(records, parent, at);
        at = parent;
    }
}

/// Moves the owner at place i down past those whose keys come earlier.
fn sift_down<K: Order>(records: &mut [Record<K>], count: usize, i: usize)
    requires within { IsIndexed records.old count × (i < count) }
    requires sinks { Sinks (none_first K.Order.leads) (key_at records.old) i count }
    ensures { Sifted K.Order.leads records.old records.new count }
{
    let mut at = i;
    // The keys say at each turn which place is next, and no range has such places.
    while at < count / 2 {
        let child = first_child(records, count, at);
        if leads_at(records, count, at, child) {
            return;
        }
        swap_owners(records, at, child);
        at = child;
    }
}

/// The child of place i, which has one, whose key comes first.
fn first_child<K: Order>(records: &[Record<K>], count: usize, i: usize) -> usize
    requires { IsIndexed records.now count × (i * 2 + 1 < count) }
    ensures { IsFirstChild (none_first K.Order.leads) (key_at records.now) i result count }
{
    let left = i * 2 + 1;
    let right = left + 1;
    if right < count && !leads_at(records, count, left, right) {
        right
    } else {
        left
    }
}

/// Whether the key at place i comes no later than the one at place j.
#[tactic(auto, using(crate::proofs::Members::reads))]
fn leads_at<K: Order>(records: &[Record<K>], count: usize, i: usize, j: usize) -> bool
    requires { IsIndexed records.now count × (i < count) × (j < count) }
    ensures { result ≡ none_first K.Order.leads (key_at records.now i) (key_at records.now j) }
{
    let (a, b) = (records[i].owner, records[j].owner);
    records[a].key.no_later(&records[b].key)
}

/// Puts an owner at a place.
fn place_owner<K>(records: &mut [Record<K>], i: usize, owner: usize)
    requires { (i < length records.old) × (owner < length records.old) }
    ensures { OwnerPlaced records.old records.new i owner }
{
    records[i].owner = owner;
    records[owner].place = i;
}

/// Lets the owners at two places change places.
#[tactic(auto, using(crate::proofs::Members::reads))]
fn swap_owners<K>(records: &mut [Record<K>], i: usize, j: usize)
    requires places { (i < length records.old) × (j < length records.old) × (i ≢ j) }
    requires owners { (owner_at records.old i < length records.old) × (owner_at records.old j < length records.old) }
    ensures { OwnersSwapped records.old records.new i j }
{
    let (a, b) = (records[i].owner, records[j].owner);
    place_owner(records, i, b);
    place_owner(records, j, a);
}
