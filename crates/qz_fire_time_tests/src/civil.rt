//! Lists and texts on their happy path; the tables of zones and fields.
mod fields;
mod rules;
mod zones;

use qz_civil::{List, ListWithRoom, NoMemory, Text, beside};
use std::alloc::{AllocError, Global};
use std::cmp::Ordering;

// Eight is put in last, before nine.
fn seven_to_nine(alloc: Global) -> Result<List<u64>, AllocError> {
    let mut list = List::new(alloc);
    list.push(7)?;
    list.push(9)?;
    list.insert(1, 8)?;
    Ok(list)
}

// Whether these are the items, in their order, and those of a copy too.
fn has_items(list: &List<u64>, items: &[u64]) -> Result<bool, AllocError> {
    let copy = list.clone()?;
    Ok(list.len() == items.len() && list.as_slice() == items && *list == copy)
}

// Whether seven is first, and what is left without it are the others.
fn has_seven_first(mut list: List<u64>) -> bool {
    if list.is_empty() {
        return false;
    }
    let first = list.remove(0);
    let rest = List::from_vec(list.into_vec());
    first == 7 && rest.as_slice() == [8, 9].as_slice()
}

#[test]
fn lists_keep_their_items(rt: HostRuntime) -> Result<(), AllocError> {
    assert!(rt; List::<u64>::new(rt.alloc()).is_empty());
    let list = seven_to_nine(rt.alloc())?;
    assert!(rt; has_items(&list, &[7, 8, 9])?);
    assert!(rt; has_seven_first(list));
    Ok(())
}

#[test]
fn items_go_into_reserved_room(rt: HostRuntime) -> Result<(), AllocError> {
    let mut list = ListWithRoom::new(rt.alloc());
    list.reserve(2)?;
    list.push_reserved(7);
    list.push_reserved(8);
    assert!(rt; list.as_slice() == [7, 8].as_slice());
    Ok(())
}

// Whether the first comes before the second, and is the same as its copy alone.
fn is_before(first: &Text, second: &Text) -> Result<bool, AllocError> {
    let copy = first.clone()?;
    let is_told_apart = *first == copy && *first != *second;
    Ok(is_told_apart && first.cmp(second) == Ordering::Less)
}

#[test]
fn texts_are_ordered_by_bytes(rt: HostRuntime) -> Result<(), AllocError> {
    let upper = Text::from_str(rt.alloc(), "B")?;
    let (upper, lower) = beside(upper, Text::from_str(rt.alloc(), "a"))?;
    assert!(rt; is_before(&upper, &lower)?);
    assert!(rt; Text::from_string(String::from_str(rt.alloc(), "B")?) == upper);
    Ok(())
}

#[test]
fn texts_begin_empty(rt: HostRuntime) -> Result<(), AllocError> {
    assert!(rt; Text::new(rt.alloc()).len() == 0);
    let told = NoMemory.to_string(rt.alloc())?;
    assert!(rt; told.as_str() == "no memory");
    Ok(())
}
