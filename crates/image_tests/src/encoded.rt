//! Images of values.

use images::{NoFit, encode};
use nres_core::{NumBag, NumMap, NumSet, Nums, Value};
use std::alloc::Global;
use std::test::Fail;
use target_code::{Image, Rep};

/// A number that no container reaches: 2^32.
const LARGE: usize = 4_294_967_296;

/// Whether an image has these registers and words.
fn is_image(image: &Image, regs: &[u64], words: &[u64]) -> bool {
    match &image.block {
        Some(block) => image.regs.as_slice() == regs && block.as_slice() == words,
        None => false,
    }
}

/// Whether a list has this image in a block of its length, and this in one with room.
fn list_image(
    alloc: Global,
    numbers: &[u64],
    regs: &[u64],
    roomy: &[u64],
    words: &[u64],
) -> Result<bool, NoFit> {
    let list = Nums::from_slice(alloc, numbers)?;
    if list.len() >= LARGE {
        return Ok(false);
    }
    let value = Value::List(list);
    let array = encode(alloc, &value, Rep::Array)?;
    let vector = encode(alloc, &value, Rep::Vec)?;
    Ok(is_image(&array, regs, numbers) && is_image(&vector, roomy, words))
}

/// Whether a multiset has this image.
fn bag_image(alloc: Global, numbers: &[u64], regs: &[u64], words: &[u64]) -> Result<bool, NoFit> {
    let mut bag = NumBag::new(alloc);
    for number in numbers {
        bag.add(*number)?;
    }
    if bag.len() >= LARGE {
        return Ok(false);
    }
    let value = Value::Bag(bag);
    let image = encode(alloc, &value, Rep::Heap)?;
    Ok(is_image(&image, regs, words))
}

/// Whether a set has this image in a table.
fn set_image(alloc: Global, numbers: &[u64], regs: &[u64], words: &[u64]) -> Result<bool, NoFit> {
    let mut set = NumSet::new(alloc);
    for number in numbers {
        set.add(*number)?;
    }
    if set.len() >= LARGE {
        return Ok(false);
    }
    let value = Value::Set(set);
    let image = encode(alloc, &value, Rep::Hset)?;
    Ok(is_image(&image, regs, words))
}

/// Whether a set has this image as bits below 70.
fn bits_image(alloc: Global, numbers: &[u64], regs: &[u64], words: &[u64]) -> Result<bool, NoFit> {
    let mut set = NumSet::new(alloc);
    for number in numbers {
        set.add(*number)?;
    }
    if set.len() >= LARGE {
        return Ok(false);
    }
    let value = Value::Set(set);
    let image = encode(alloc, &value, Rep::Bits(70))?;
    Ok(is_image(&image, regs, words))
}

/// Whether a map of one pair has this image in a table, and this as marks below 10.
fn map_image(alloc: Global, pair: (u64, u64), words: &[u64], marks: &[u64]) -> Result<bool, NoFit> {
    let mut map = NumMap::new(alloc);
    map.add(pair.0, pair.1)?;
    if map.len() >= LARGE {
        return Ok(false);
    }
    let value = Value::Map(map);
    let table = encode(alloc, &value, Rep::Hmap)?;
    let marked = encode(alloc, &value, Rep::Amap(10))?;
    Ok(is_image(&table, &[0, 8, 1, 1], words) && is_image(&marked, &[0, 1], marks))
}

/// The words of eight slots of a map with the pair 8, 4.
const PAIR: &[u64] = &[
    1, 8, 4, 0, 0, 0, 0, 0, 0, 0, 0, 0, 0, 0, 0, 0, 0, 0, 0, 0, 0, 0, 0, 0,
];

/// The marks and values below 10 of the same.
const MARKS: &[u64] = &[0, 0, 0, 0, 0, 0, 0, 0, 0, 0, 0, 0, 0, 0, 0, 0, 1, 4, 0, 0];

/// Whether a number and a truth value lie in one register.
fn register_images(alloc: Global) -> Result<bool, NoFit> {
    let number = encode(alloc, &Value::Nat(7), Rep::Word)?;
    let truth = encode(alloc, &Value::Bool(true), Rep::Flag)?;
    Ok(number.regs.as_slice() == &[7][..] && truth.regs.as_slice() == &[1][..])
}

#[test]
fn images_are_those_of_the_formats(rt: HostRuntime) -> Result<(), Fail> {
    let alloc = rt.alloc();
    assert!(rt; register_images(alloc) == Ok(true));
    assert!(rt; list_image(alloc, &[7, 8], &[0, 0, 2], &[0, 2, 4], &[7, 8, 0, 0]) == Ok(true));
    assert!(rt; bag_image(alloc, &[3, 1, 2], &[0, 3, 4], &[1, 2, 3, 0]) == Ok(true));
    assert!(rt; map_image(alloc, (8, 4), PAIR, MARKS) == Ok(true));
    Ok(())
}

#[test]
fn sets_go_round_the_table_and_into_bits(rt: HostRuntime) -> Result<(), Fail> {
    let alloc = rt.alloc();
    let round = &[1, 15, 0, 0, 0, 0, 0, 0, 0, 0, 0, 0, 0, 0, 1, 7];
    assert!(rt; set_image(alloc, &[15, 7], &[0, 8, 2, 2], round) == Ok(true));
    assert!(rt; bits_image(alloc, &[69, 3], &[0, 2], &[8, 32]) == Ok(true));
    Ok(())
}

#[test]
fn the_least_element_that_does_not_fit_is_told(rt: HostRuntime) -> Result<(), Fail> {
    let found = bits_image(rt.alloc(), &[80, 3, 70], &[0, 2], &[8, 32]);
    assert!(rt; found == Err(NoFit::Element(70)));
    Ok(())
}
