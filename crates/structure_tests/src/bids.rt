//! Keys of two fields, compared one after the other.
ghost use Rattle.std.specs.Prelude.{if◌then◌else◌, nat_eq, nat_le, nat_lt};
ghost use Rattle.std.proofs.Common.{rules};

use heap::{Order, Record};

#[derive(Clone, Copy, PartialEq, Eq, Debug)]
struct Bid {
    class: u8,
    number: u16,
}

// The lower class leads, and in one class the higher number.
impl Order for Bid {
    ghost leads = { λ a b. (if nat_eq a.class b.class then nat_le b.number a.number else nat_lt a.class b.class) };

    ghost total = { Prim.search rules };

    ghost chain = { Prim.search rules };

    fn no_later(&self, other: &Bid) -> bool {
        self.class
            .cmp(&other.class)
            .then(other.number.cmp(&self.number))
            .is_le()
    }
}

fn of_class(class: u8, number: u16) -> Bid {
    Bid { class, number }
}

fn owner_of(root: Option<(usize, &Bid)>) -> Option<usize> {
    root.map(|(owner, _)| owner)
}

#[test]
fn the_first_field_that_differs_decides(rt: HostRuntime) {
    let nobody = Record {
        key: of_class(0, 0),
        owner: 0,
        place: 0,
    };
    let mut records = [nobody; 3];
    assert_eq!(rt; owner_of(heap::root(&records, 0)), None);
    let one = heap::put(&mut records, 0, 0, of_class(2, 9));
    let two = heap::put(&mut records, one, 1, of_class(1, 7));
    let three = heap::put(&mut records, two, 2, of_class(1, 8));
    assert_eq!(rt; owner_of(heap::root(&records, three)), Some(2));
    let left = heap::take(&mut records, three, 2);
    assert!(rt; !heap::contains(&records, left, 2));
    assert_eq!(rt; heap::key(&records, left, 1).copied(), Some(of_class(1, 7)));
    assert_eq!(rt; owner_of(heap::root(&records, left)), Some(1));
}
