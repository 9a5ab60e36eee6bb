use crate::Entry::{Announce, Count, Enter, Leave, Load, Look, Retire, Unload};
use crate::plain::{
    counts, follow, images, is_free, is_inside, is_lawful_walk, is_legal, is_listed, lists_after,
    loads, stamp_of,
};
use crate::{Change, Entry, Image, MOST_CHANGES, MOST_NODES, MOST_PASSES, Named};
use std::alloc::{AllocError, Global};
use std::collections::LinkedList;
use std::process::Abort;
use std::test::Fail;

// On a table of three nodes and one pass: A and B are loaded, the pass announces two counts and
// goes in, both are unloaded, C is loaded, a look finds the stamp, the pass comes out and retires,
// a look finds none, and D is loaded on A's node.
const WORKED: [Entry; 18] = [
    Load {
        node: 1,
        load: 1,
        header: 0x1_0000_0000,
    },
    Count,
    Load {
        node: 2,
        load: 2,
        header: 0x1_0000_4000,
    },
    Count,
    Announce { pass: 0, seen: 2 },
    Enter(0),
    Unload { node: 1 },
    Count,
    Unload { node: 2 },
    Count,
    Load {
        node: 3,
        load: 3,
        header: 0x1_0000_8000,
    },
    Count,
    Look { pass: 0, stamp: 3 },
    Leave(0),
    Retire(0),
    Look { pass: 0, stamp: 0 },
    Load {
        node: 1,
        load: 4,
        header: 0x1_0000_c000,
    },
    Count,
];

// How many counts and loads there are, the stamp of the pass, and which of the three nodes are free
// and which in the list.
fn expect(
    rt: &impl Abort,
    history: &[Entry],
    numbers: (usize, usize, u64),
    free: [bool; 3],
    listed: [bool; 3],
) {
    assert_eq!(rt;
        (counts(history), loads(history), stamp_of(history, 0)),
        numbers
    );
    assert_eq!(rt;
        [
            is_free(history, 1, 1),
            is_free(history, 2, 1),
            is_free(history, 3, 1)
        ],
        free
    );
    assert_eq!(rt;
        [
            is_listed(history, 1),
            is_listed(history, 2),
            is_listed(history, 3)
        ],
        listed
    );
    assert!(rt; is_legal(history, 3, 1));
}

#[test]
fn the_limits_of_a_list(rt: HostRuntime) {
    assert_eq!(rt; MOST_NODES, 4_096);
    assert_eq!(rt; MOST_PASSES, 1_024);
    assert_eq!(rt; MOST_CHANGES, 4_294_967_295);
}

#[test]
fn worked_history(rt: HostRuntime) {
    expect(
        &rt,
        &[],
        (0, 0, 0),
        [true, true, true],
        [false, false, false],
    );
    expect(
        &rt,
        &WORKED[..6],
        (2, 2, 3),
        [false, false, true],
        [true, true, false],
    );
    expect(
        &rt,
        &WORKED[..13],
        (5, 3, 3),
        [false, false, false],
        [false, false, true],
    );
    expect(
        &rt,
        &WORKED[..15],
        (5, 3, 0),
        [false, false, false],
        [false, false, true],
    );
    expect(
        &rt,
        &WORKED[..16],
        (5, 3, 0),
        [true, true, false],
        [false, false, true],
    );
    expect(
        &rt,
        &WORKED,
        (6, 4, 0),
        [false, true, false],
        [true, false, true],
    );
    let list = images(rt.alloc(), &WORKED).expect(&rt, "memory is ample");
    let c = Image {
        node: 3,
        load: 3,
        header: 0x1_0000_8000,
    };
    let d = Image {
        node: 1,
        load: 4,
        header: 0x1_0000_c000,
    };
    assert!(rt; list.as_slice() == [c, d].as_slice());
}

// On a table of two nodes and two passes one pass is inside at each moment, and the node unloaded
// under the first is free once the second, which saw the unload counted, is all that is inside.
const OVERLAPPING: [Entry; 16] = [
    Load {
        node: 1,
        load: 1,
        header: 16,
    },
    Count,
    Announce { pass: 0, seen: 1 },
    Enter(0),
    Unload { node: 1 },
    Count,
    Announce { pass: 1, seen: 2 },
    Enter(1),
    Leave(0),
    Retire(0),
    Load {
        node: 2,
        load: 2,
        header: 32,
    },
    Count,
    Look { pass: 0, stamp: 0 },
    Look { pass: 1, stamp: 3 },
    Load {
        node: 1,
        load: 3,
        header: 48,
    },
    Count,
];

#[test]
fn passes_that_overlap_hold_back_nothing(rt: HostRuntime) {
    assert!(rt; is_legal(&OVERLAPPING, 2, 2));
    assert!(rt; is_inside(&OVERLAPPING, 1));
    assert!(rt; !is_free(&OVERLAPPING[..13], 1, 2));
    assert!(rt; is_free(&OVERLAPPING[..14], 1, 2));
}

#[test]
fn an_announcement_from_before_holds_a_node_back(rt: HostRuntime) {
    // The pass saw one count, and announced it after the unload was counted.
    let late = [
        Load {
            node: 1,
            load: 1,
            header: 16,
        },
        Count,
        Unload { node: 1 },
        Count,
        Announce { pass: 0, seen: 1 },
        Enter(0),
        Look { pass: 0, stamp: 2 },
    ];
    assert!(rt; is_legal(&late, 1, 1));
    assert!(rt; !is_free(&late, 1, 1));
}

#[test]
fn refuses_what_may_not_follow(rt: HostRuntime) {
    let one = Load {
        node: 1,
        load: 1,
        header: 16,
    };
    let again = Load {
        node: 1,
        load: 2,
        header: 32,
    };
    let refused: [&[Entry]; 12] = [
        &[one, again],
        &[
            one,
            Count,
            Announce { pass: 0, seen: 1 },
            Enter(0),
            Unload { node: 1 },
            Count,
            Look { pass: 0, stamp: 2 },
            again,
        ],
        &[
            one,
            Count,
            Look { pass: 0, stamp: 0 },
            Unload { node: 1 },
            again,
        ],
        &[Load {
            node: 3,
            load: 1,
            header: 16,
        }],
        &[Load {
            node: 0,
            load: 1,
            header: 16,
        }],
        &[Unload { node: 1 }],
        &[Enter(0)],
        &[Announce { pass: 1, seen: 0 }],
        &[Announce { pass: 0, seen: 1 }],
        &[Announce { pass: 0, seen: 0 }, Enter(0), Retire(0)],
        &[Announce { pass: 0, seen: 0 }, Look { pass: 0, stamp: 0 }],
        &[Look { pass: 1, stamp: 0 }],
    ];
    for history in refused {
        assert!(rt; !is_legal(history, 2, 1));
    }
}

// An image whose name is one letter.
fn named(alloc: Global, load: u32, header: u64, letter: u8) -> Result<Named, AllocError> {
    let mut name = LinkedList::new(alloc);
    name.push_back(letter)?;
    Ok(Named { load, header, name })
}

// The lists after each of the changes: A and B are loaded and unloaded, and C is loaded.
fn lists(alloc: Global) -> Result<Vec<Vec<Named>>, AllocError> {
    let changes = [
        Change::Loads(named(alloc, 1, 16, b'A')?),
        Change::Loads(named(alloc, 2, 32, b'B')?),
        Change::Unloads(16),
        Change::Unloads(32),
        Change::Loads(named(alloc, 3, 48, b'C')?),
    ];
    lists_after(alloc, &changes)
}

#[test]
fn walks_follow_the_last_list_that_had_an_image(rt: HostRuntime) -> Result<(), Fail> {
    let lists = lists(rt.alloc())?;
    assert_eq!(rt; lists.len(), 6);
    if lists.len() == 6 {
        assert_eq!(rt; follow(&lists, 0, 0), None);
        assert_eq!(rt; follow(&lists, 0, 2), Some(1));
        assert_eq!(rt; follow(&lists, 1, 5), Some(2));
        assert_eq!(rt; follow(&lists, 2, 5), None);
        assert_eq!(rt; follow(&lists, 0, 5), Some(3));
    }
    Ok(())
}

#[test]
fn only_some_walks_are_lawful(rt: HostRuntime) -> Result<(), Fail> {
    let alloc = rt.alloc();
    let lists = lists(alloc)?;
    let both = [named(alloc, 1, 16, b'A')?, named(alloc, 2, 32, b'B')?];
    let other_name = [named(alloc, 1, 16, b'A')?, named(alloc, 2, 32, b'C')?];
    let turned = [named(alloc, 2, 32, b'B')?, named(alloc, 1, 16, b'A')?];
    assert_eq!(rt; lists.len(), 6);
    if lists.len() == 6 {
        assert!(rt; is_lawful_walk(&lists, 2, 5, &both));
        assert!(rt; is_lawful_walk(&lists, 2, 2, &both));
        assert!(rt; is_lawful_walk(&lists, 2, 4, &[]));
        // An image that stood there all along is missing, one that never stood there is met, one
        // has another name, and the numbers do not rise.
        assert!(rt; !is_lawful_walk(&lists, 1, 2, &[]));
        assert!(rt; !is_lawful_walk(&lists, 4, 5, &both));
        assert!(rt; !is_lawful_walk(&lists, 2, 5, &other_name));
        assert!(rt; !is_lawful_walk(&lists, 2, 5, &turned));
        assert!(rt; !is_lawful_walk(&lists, 2, 2, &[]));
    }
    Ok(())
}
