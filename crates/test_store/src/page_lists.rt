//! Lists with weights of each width, read in each way from pages and from arrays of their own.
use ascending_lists::ascends;
use edge_updates::{EdgeUpdate, Updates};
use pages::{EntryColumns, MAX_LONG, MAX_PACKED, Neighbours, PackedList, Page, merge};
use std::alloc::Global;
use std::test::Fail;
use test_helpers::{Checked, check};

const MIXED: [(u32, i64); 9] = [
    (1, 1),
    (2, 255),
    (3, 256),
    (4, 65535),
    (5, 65536),
    (6, 2147483647),
    (7, 2147483648),
    (8, -1),
    (9, -2147483649),
];

const VERTEX: u32 = 62;

// Lists with weights of each width, and of 1 alone.
const LISTS: [&'static [(u32, i64)]; 12] = [
    &MIXED,
    &[(7, 1)],
    &[(7, 0)],
    &[(7, -1)],
    &[(1, 1), (2, 1), (300, 1)],
    &[(1, 0), (2, 255), (300, 1)],
    &[(1, 1), (70000, 256)],
    &[(1, 65535), (70000, 0), (70001, 7)],
    &[(1, 65536), (20000000, -3)],
    &[(0, -2147483648), (4294967295, 2147483647)],
    &[(0, 2147483648)],
    &[(0, -9223372036854775808), (1, 9223372036854775807)],
];

#[test]
fn lists_are_read_as_they_are_written(rt: HostRuntime) -> Result<(), Fail> {
    for list in &LISTS {
        let page = page_of(rt.alloc(), list)?;
        assert_eq!(rt; check_list(&page.list(VERTEX), list), Ok(()), "{list:?}");
        assert_eq!(rt;
            page.degree(VERTEX) as usize,
            list.len(),
            "the degree of {list:?}"
        );
        assert_eq!(rt; page.len(), 1, "the page of {list:?}");
        assert!(rt;
            page.list(VERTEX + 1).is_empty(),
            "the vertex after {list:?}"
        );
    }
    Ok(())
}

#[test]
fn blocks_have_both_columns(rt: HostRuntime) -> Result<(), Fail> {
    for list in &LISTS {
        let page = page_of(rt.alloc(), list)?;
        for room in 1..5usize {
            assert_eq!(rt;
                check_up(&page, list, room),
                Ok(()),
                "{list:?} upward by {room}"
            );
            assert_eq!(rt;
                check_down(&page, list, room),
                Ok(()),
                "{list:?} downward by {room}"
            );
        }
    }
    Ok(())
}

// How many neighbours a list has, and how far each is above the one before: offsets of 1 to 4 bytes for
// each number of neighbours, but for those that one byte cannot number.
const SHAPES: [(u32, u32); 15] = [
    (1, 7),
    (2, 255),
    (2, 256),
    (2, 65_536),
    (2, 16_777_216),
    (256, 1),
    (256, 257),
    (256, 258),
    (256, 16_000_000),
    (257, 1),
    (257, 256),
    (257, 65_536),
    (2_048, 1),
    (2_048, 33),
    (2_048, 2_000_000),
];

// One weight of each width, and of the least and the greatest numbers.
const WEIGHTS: [i64; 9] = [
    1,
    0,
    255,
    65_535,
    65_536,
    -1,
    2_147_483_648,
    -9_223_372_036_854_775_808,
    9_223_372_036_854_775_807,
];

#[test]
fn lists_of_their_own_are_read_as_they_are_written(rt: HostRuntime) -> Result<(), Fail> {
    for (count, step) in &SHAPES {
        for weight in &WEIGHTS {
            let columns = spread(rt.alloc(), *count, *step, *weight)?;
            let (keys, weights) = columns.columns();
            assert_eq!(rt; keys.len(), *count as usize, "{count} {step} {weight}");
            let read = check_read(rt.alloc(), keys, weights)?;
            assert_eq!(rt; read, Ok(()), "{count} {step} {weight}");
        }
    }
    Ok(())
}

// So many neighbours, each so far above the one before, of which every other one, and the last one, has
// a weight, and the others have 1.
fn spread(alloc: Global, count: u32, step: u32, weight: i64) -> Result<EntryColumns, Fail> {
    let mut columns = EntryColumns::with_capacity(alloc, MAX_LONG)?;
    for index in 0..count {
        let is_last = index.saturating_add(1) == count;
        let weight = if is_last || index % 2 == 0 { weight } else { 1 };
        columns.push(index.saturating_mul(step).saturating_add(5), weight)?;
    }
    Ok(columns)
}

// Checks that a list of these columns gives them again, by each way of reading it.
fn check_read(alloc: Global, keys: &[u32], weights: &[i64]) -> Result<Checked, Fail> {
    if keys.is_empty() || keys.len() > MAX_LONG || !ascends(None, keys) {
        return Ok(Err("the order of the keys, and how many there are"));
    }
    let list = PackedList::new(alloc, keys, weights)?;
    Ok(
        check(list.len() == keys.len(), "the length of the list")
            .and(check_columns(&list.lend(), keys, weights))
            .and(check_columns_up(list.lend(), keys, weights))
            .and(check_columns_down(list.lend(), keys, weights)),
    )
}

fn check_columns(list: &Neighbours<'_>, keys: &[u32], weights: &[i64]) -> Checked {
    check(list.len() == keys.len(), "the length")?;
    for index in 0..keys.len().min(list.len()) {
        let (neighbour, weight) = (keys[index], weight_of(weights, index));
        check(
            list.neighbour(index) == neighbour,
            "a neighbour by its index",
        )?;
        check(list.weight(index) == weight, "a weight by its index")?;
        check(
            list.get(neighbour) == Some(weight),
            "the weight of a neighbour",
        )?;
    }
    check(list.get(4).is_none(), "a vertex below the neighbours")?;
    check(
        list.get(4294967295).is_none(),
        "a vertex above the neighbours",
    )
}

fn check_columns_up(list: Neighbours<'_>, keys: &[u32], weights: &[i64]) -> Checked {
    let mut walk = list.ascending();
    let (mut block, mut column) = ([0u32; 100], [0i64; 100]);
    let mut read = 0usize;
    for _ in 0..22 {
        let filled = walk.fill_weighted(&mut block, &mut column);
        for position in 0..filled.min(100) {
            check(
                keys.get(read) == Some(&block[position]),
                "a neighbour upward",
            )?;
            check(
                weight_of(weights, read) == column[position],
                "a weight upward",
            )?;
            read = read.saturating_add(1);
        }
    }
    check(read == keys.len(), "how many neighbours come upward")?;
    check(walk.is_empty(), "the end of the walk upward")
}

fn check_columns_down(list: Neighbours<'_>, keys: &[u32], weights: &[i64]) -> Checked {
    let mut walk = list.descending();
    let (mut block, mut column) = ([0u32; 100], [0i64; 100]);
    let mut left = keys.len();
    for _ in 0..22 {
        let filled = walk.fill_weighted(&mut block, &mut column);
        for position in 0..filled.min(100) {
            left = left.saturating_sub(1);
            check(
                keys.get(left) == Some(&block[position]),
                "a neighbour downward",
            )?;
            check(
                weight_of(weights, left) == column[position],
                "a weight downward",
            )?;
        }
    }
    check(left == 0, "how many neighbours come downward")?;
    check(walk.is_empty(), "the end of the walk downward")
}

fn weight_of(weights: &[i64], index: usize) -> i64 {
    weights.get(index).copied().unwrap_or(1)
}

#[test]
fn an_added_edge_that_is_there_gets_the_new_weight(rt: HostRuntime) -> Result<(), Fail> {
    let page = page_of(rt.alloc(), &MIXED)?;
    let page = updated(rt.alloc(), &page, (4, true), &[])?;
    let mut expected = MIXED;
    expected[3] = (4, 1);
    assert_eq!(rt;
        check_list(&page.list(VERTEX), &expected),
        Ok(()),
        "after the addition"
    );
    let page = updated(rt.alloc(), &page, (9, false), &[-7])?;
    assert_eq!(rt;
        check_list(&page.list(VERTEX), &expected[..8]),
        Ok(()),
        "after the removal"
    );
    let page = updated(rt.alloc(), &page, (0, true), &[-7])?;
    assert_eq!(rt; page.degree(VERTEX), 9, "the degree after another addition");
    assert_eq!(rt;
        page.list(VERTEX).get(0),
        Some(-7),
        "the weight after another addition"
    );
    Ok(())
}

// The page after an update of one neighbour, whose edge is added or removed.
fn updated(
    alloc: Global,
    page: &Page,
    (neighbour, is_added): (u32, bool),
    weights: &[i64],
) -> Result<Page, Fail> {
    let updates = [EdgeUpdate::new(VERTEX, neighbour % 1024, is_added)];
    let mut after = EntryColumns::with_capacity(alloc, MAX_PACKED)?;
    merge(
        &page.list(VERTEX),
        &Updates::new(&updates, weights),
        &mut after,
    )?;
    page_of_columns(alloc, &after)
}

// Checks that walks upward and downward fill blocks of n with the list and its weights.
fn check_up(page: &Page, list: &[(u32, i64)], room: usize) -> Checked {
    let mut walk = page.list(VERTEX).ascending();
    let (mut keys, mut weights) = ([7u32; 4], [7i64; 4]);
    let mut read = 0usize;
    for _ in 0..10 {
        let filled = walk.fill_weighted(&mut keys[..room.min(4)], &mut weights);
        for position in 0..filled.min(4) {
            let found = (keys[position], weights[position]);
            check(
                list.get(read) == Some(&found),
                "a neighbour with its weight",
            )?;
            read = read.saturating_add(1);
        }
    }
    check(read == list.len(), "how many neighbours come")?;
    check(walk.is_empty(), "the end of the walk")
}

fn check_down(page: &Page, list: &[(u32, i64)], room: usize) -> Checked {
    let mut walk = page.list(VERTEX).descending();
    let (mut keys, mut weights) = ([7u32; 4], [7i64; 4]);
    let mut left = list.len();
    for _ in 0..10 {
        let filled = walk.fill_weighted(&mut keys, &mut weights[..room.min(4)]);
        for position in 0..filled.min(4) {
            left = left.saturating_sub(1);
            let found = (keys[position], weights[position]);
            check(
                list.get(left) == Some(&found),
                "a neighbour with its weight",
            )?;
        }
    }
    check(left == 0, "how many neighbours come")?;
    check(walk.is_empty(), "the end of the walk")
}

// A page of one vertex.
fn page_of(alloc: Global, list: &[(u32, i64)]) -> Result<Page, Fail> {
    let columns = entries(alloc, list)?;
    page_of_columns(alloc, &columns)
}

fn page_of_columns(alloc: Global, columns: &EntryColumns) -> Result<Page, Fail> {
    let (keys, weights) = columns.columns();
    let mut page = Page::new(alloc)?;
    if !keys.is_empty() && keys.len() <= MAX_PACKED && ascends(None, keys) {
        page.push(VERTEX, keys, weights)?;
    }
    Ok(page)
}

fn entries(alloc: Global, list: &[(u32, i64)]) -> Result<EntryColumns, Fail> {
    let mut columns = EntryColumns::with_capacity(alloc, list.len())?;
    for (neighbour, weight) in list {
        columns.push(*neighbour, *weight)?;
    }
    Ok(columns)
}

// Checks that a list has these neighbours with these weights, by each way of reading it.
fn check_list(list: &Neighbours<'_>, expected: &[(u32, i64)]) -> Checked {
    check(list.len() == expected.len(), "the length")?;
    for index in 0..expected.len().min(list.len()) {
        let (neighbour, weight) = expected[index];
        check(
            list.neighbour(index) == neighbour,
            "a neighbour by its index",
        )?;
        check(list.weight(index) == weight, "a weight by its index")?;
        check(
            list.get(neighbour) == Some(weight),
            "the weight of a neighbour",
        )?;
    }
    check(has_17(list, expected), "whether 17 is a neighbour")
}

// Whether a list has vertex 17 if it is expected, and only then.
fn has_17(list: &Neighbours<'_>, expected: &[(u32, i64)]) -> bool {
    expected.iter().any(|(key, _)| *key == 17) == list.get(17).is_some()
}
