use crate::{Ranked, Shared};
use std::alloc::AllocError;
use std::process::Abort;

// A rank with a mark.
#[derive(Clone, Copy, Debug, PartialEq, Eq)]
struct Marked(u64, u8);

impl Ranked for Marked {
    ghost rank_of = { λ marked. marked.0 };

    fn rank(&self) -> u64 {
        self.0
    }
}

fn list_of<R: AllocGlobal + Abort>(rt: &R, marked: &[Marked]) -> Shared<Marked> {
    let mut list = Shared::new(rt.alloc());
    for x in marked {
        list = list.with(*x).expect(rt, "memory");
    }
    list
}

fn vec_of(rt: &impl Abort, list: &Shared<Marked>) -> Vec<Marked> {
    list.to_vec().expect(rt, "memory")
}

#[test]
fn elements_ascend_by_rank(rt: HostRuntime) {
    let list = list_of(
        &rt,
        &[Marked(7, 0), Marked(2, 0), Marked(9, 0), Marked(4, 0)],
    );
    let ranked = [Marked(2, 0), Marked(4, 0), Marked(7, 0), Marked(9, 0)];
    assert_eq!(rt; vec_of(&rt, &list).as_slice(), ranked.as_slice());
}

#[test]
fn an_edit_leaves_the_list_as_it_was(rt: HostRuntime) {
    let list = list_of(&rt, &[Marked(1, 0), Marked(2, 0), Marked(3, 0)]);
    let other = list.with(Marked(2, 1)).expect(&rt, "memory");
    let less = other.without(1).expect(&rt, "memory");
    assert_eq!(rt; list.get(2).copied(), Some(Marked(2, 0)));
    assert_eq!(rt; other.get(2).copied(), Some(Marked(2, 1)));
    assert_eq!(rt; less.get(1).copied(), None);
    assert_eq!(rt; vec_of(&rt, &list).len(), 3);
    assert_eq!(rt;
        vec_of(&rt, &less).as_slice(),
        [Marked(2, 1), Marked(3, 0)].as_slice()
    );
}

#[test]
fn what_is_not_there_is_not_taken_out(rt: HostRuntime) {
    let list = list_of(&rt, &[Marked(1, 0)]);
    let same = list.without(2).expect(&rt, "memory");
    assert_eq!(rt; vec_of(&rt, &same).as_slice(), [Marked(1, 0)].as_slice());
    let none = same.without(1).expect(&rt, "memory");
    assert_eq!(rt; vec_of(&rt, &none).len(), 0);
    assert_eq!(rt; none.get(1).copied(), None);
}

#[test]
fn a_range_has_both_its_ends(rt: HostRuntime) {
    let list = list_of(
        &rt,
        &[
            Marked(1, 0),
            Marked(2, 0),
            Marked(4, 0),
            Marked(8, 0),
            Marked(9, 0),
        ],
    );
    let some = list.from_to(2, 8).expect(&rt, "memory");
    assert_eq!(rt;
        some.as_slice(),
        [Marked(2, 0), Marked(4, 0), Marked(8, 0)].as_slice()
    );
    let none = list.from_to(5, 7).expect(&rt, "memory");
    assert_eq!(rt; none.len(), 0);
}

// The list of the ranks below the count, which come in at this distance from one to the next.
fn grown<R: AllocGlobal + Abort>(rt: &R, count: u64, step: u64) -> Shared<Marked> {
    let mut list = Shared::new(rt.alloc());
    for i in 0..count {
        let rank = i.wrapping_mul(step) % count;
        list = list.with(Marked(rank, 0)).expect(rt, "memory");
    }
    list
}

// The same list without each third.
fn thirds_out<R: AllocGlobal + Abort>(rt: &R, count: u64, step: u64) -> Shared<Marked> {
    let mut list = grown(rt, count, step);
    for rank in 0..count {
        if rank % 3 == 0 {
            list = list.without(rank).expect(rt, "memory");
        }
    }
    list
}

// Whether it has each rank below the count that three doesn't divide, and no other.
fn has_all_but_thirds(rt: &impl Abort, list: &Shared<Marked>, count: u64) -> bool {
    let all = vec_of(rt, list);
    let right = (0..count).all(|rank| list.get(rank).is_some() == (rank % 3 != 0));
    right && all.len() as u64 == count - count.div_ceil(3)
}

#[test]
fn many_edits_are_right_in_any_order(rt: HostRuntime) {
    for step in [1, 7, 199] {
        let list = thirds_out(&rt, 200, step);
        assert!(rt; has_all_but_thirds(&rt, &list, 200));
    }
}

#[test]
fn a_tree_is_flat_in_whatever_order_it_grows(rt: HostRuntime) {
    // 8 levels hold at most 255 elements, and 13 levels have at least 609.
    for step in [1, 7, 499] {
        let list = grown(&rt, 500, step);
        assert!(&rt; list.height() >= 9 && list.height() <= 12);
    }
}

#[test]
fn a_tree_is_flat_again_as_elements_go(rt: HostRuntime) {
    let mut list = grown(&rt, 500, 1);
    for rank in 100..500 {
        list = list.without(rank).expect(&rt, "memory");
    }
    // 6 levels hold at most 63 elements, and 10 levels have at least 143.
    assert!(&rt; list.height() >= 7 && list.height() <= 9);
}
