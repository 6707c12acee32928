//! Each operation, by texts with values.

use crate::runs::answers;
use std::alloc::Global;
use std::test::Fail;

// What is shown, what the block does, the status, and the output without its last line feed.
const OPERATIONS: [(&str, &str, u8, &str); 60] = [
    ("list as vec", "return nil as vec", 0, "= []"),
    ("set as hset", "return empty as hset", 0, "= {}"),
    ("map as hmap", "return empty as hmap", 0, "= {:}"),
    ("bag as heap", "return empty as heap", 0, "= bag []"),
    ("list as vec", "return zeros 3 as vec", 0, "= [0, 0, 0]"),
    ("list as vec", "return zeros 0 as vec", 0, "= []"),
    (
        "list as vec",
        "return zeros 4294967296 as vec",
        14,
        "! fails 1",
    ),
    (
        "nat",
        "l <- zeros 4294967295 as vec return len l",
        0,
        "= 4294967295",
    ),
    ("nat", "return len xs", 0, "= 3"),
    ("nat", "return get xs 1", 0, "= 8"),
    ("nat", "return get xs 3", 14, "! fails 1"),
    ("list as vec", "return set xs 1 9", 0, "= [5, 9, 6]"),
    ("list as vec", "return set xs 3 9", 14, "! fails 1"),
    ("list as vec", "return swap xs 0 2", 0, "= [6, 8, 5]"),
    ("list as vec", "return swap xs 1 1", 0, "= [5, 8, 6]"),
    ("list as vec", "return swap xs 0 3", 14, "! fails 1"),
    ("list as vec", "return push xs 7", 0, "= [5, 8, 6, 7]"),
    (
        "(nat, list as vec)",
        "(x, l) <- pop xs return (x, l)",
        0,
        "= 6\n= [5, 8]",
    ),
    (
        "nat",
        "(x, l) <- pop (nil as vec) return x",
        14,
        "! fails 1",
    ),
    ("list as vec", "return copy xs", 0, "= [5, 8, 6]"),
    ("nat", "return size s", 0, "= 3"),
    ("bool", "return has s 6", 0, "= true"),
    ("bool", "return has s 5", 0, "= false"),
    ("set as hset", "return insert s 5", 0, "= {2, 5, 6, 9}"),
    ("set as hset", "return insert s 6", 0, "= {2, 6, 9}"),
    ("set as hset", "return remove s 6", 0, "= {2, 9}"),
    ("set as hset", "return remove s 5", 0, "= {2, 6, 9}"),
    ("nat", "x <- pick s return x", 0, "= 2"),
    ("nat", "x <- pick (empty as hset) return x", 14, "! fails 1"),
    ("set as hset", "return union s t", 0, "= {1, 2, 6, 9}"),
    ("list as vec", "l <- elems s return l", 0, "= [2, 6, 9]"),
    ("set as hset", "return copy s", 0, "= {2, 6, 9}"),
    ("nat", "return size m", 0, "= 2"),
    ("bool", "return has m 7", 0, "= true"),
    ("bool", "return has m 4", 0, "= false"),
    ("nat", "return lookup m 3", 0, "= 4"),
    ("nat", "return lookup m 4", 14, "! fails 1"),
    ("map as hmap", "return put m 5 0", 0, "= {3: 4, 5: 0, 7: 1}"),
    ("map as hmap", "return put m 3 0", 0, "= {3: 0, 7: 1}"),
    ("map as hmap", "return del m 3", 0, "= {7: 1}"),
    ("map as hmap", "return del m 4", 0, "= {3: 4, 7: 1}"),
    ("list as vec", "l <- keys m return l", 0, "= [3, 7]"),
    ("map as hmap", "return copy m", 0, "= {3: 4, 7: 1}"),
    ("nat", "return size h", 0, "= 3"),
    ("bag as heap", "return add h 2", 0, "= bag [2, 2, 6, 6]"),
    ("nat", "return minimum h", 0, "= 2"),
    ("nat", "return minimum (empty as heap)", 14, "! fails 1"),
    (
        "(nat, bag as heap)",
        "(x, g) <- take_min h return (x, g)",
        0,
        "= 2\n= bag [6, 6]",
    ),
    (
        "nat",
        "(x, g) <- take_min (empty as heap) return x",
        14,
        "! fails 1",
    ),
    ("bag as heap", "return copy h", 0, "= bag [2, 6, 6]"),
    ("nat", "return 7 + 8 * 2 - 3", 0, "= 20"),
    ("nat", "return 7 / 2 * 10 + 7 % 4", 0, "= 33"),
    ("nat", "return 1 - 2", 14, "! fails 1"),
    ("nat", "return 18446744073709551615 + 1", 14, "! fails 1"),
    ("nat", "return 4294967296 * 4294967296", 14, "! fails 1"),
    ("nat", "return 1 / 0", 14, "! fails 1"),
    ("nat", "return 1 % 0", 14, "! fails 1"),
    ("nat", "return max (min 4 9) 3", 0, "= 4"),
    (
        "bool",
        "return 1 < 2 && 2 <= 2 && 3 == 3 && 3 != 4",
        0,
        "= true",
    ),
    ("bool", "return !(1 < 1) && (false || true)", 0, "= true"),
];

// Whether a block gives this on a list, two sets, a map and a multiset.
fn gives(alloc: Global, shown: &str, block: &str, status: u8, output: &str) -> Result<bool, Fail> {
    let text = format!(in alloc;
        "spec a (xs: list as vec, s: set as hset, t: set as hset, m: map as hmap, h: bag as heap) : {shown} {block} end\nwith xs = [5, 8, 6]\nwith s = {{6, 2, 9}}\nwith t = {{9, 1}}\nwith m = {{7: 1, 3: 4}}\nwith h = bag [6, 2, 6]\n"
    )?;
    let output = format!(in alloc; "{output}\n")?;
    answers(alloc, "eval", text.as_str(), status, output.as_str())
}

// How many of the first operations give what they should.
fn given(alloc: Global) -> Result<usize, Fail> {
    for (at, case) in OPERATIONS.iter().enumerate() {
        if !gives(alloc, case.0, case.1, case.2, case.3)? {
            return Ok(at);
        }
    }
    Ok(OPERATIONS.len())
}

#[test]
fn operations_give_what_they_should(rt: HostRuntime) -> Result<(), Fail> {
    let count = given(rt.alloc())?;
    assert_eq!(rt; count, OPERATIONS.len());
    Ok(())
}
