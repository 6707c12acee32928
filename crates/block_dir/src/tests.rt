ghost use Rattle.std.specs.Prelude.{◌≡◌, ℕ, ◌+◌, ◌*◌, ◌<◌, ◌≤◌};
ghost use Rattle.std.specs.Thread.{IsSync};
ghost use Rattle.block_dir.specs.Calls.{view, seat_of, id_of, HasWord, OwnsWord};
ghost use Rattle.block_dir.specs.Steps.{IsWhole};
ghost use Rattle.block_dir.specs.Views.{whole, cell_of, share_of, written, joined};

use crate::{Claim, DirSeat, Directory, Part};
use std::test::Fail;
use std::thread;
use std::thread::Threads;

// The name of a block that was won, 0 where none was.
fn won(claim: Claim) -> u64 {
    match claim {
        Claim::Won(name) => name,
        Claim::Full { at: _ } => 0,
    }
}

// Whether a claim found no room, behind a chain of so many words.
fn is_full(claim: Claim, words: u64) -> bool {
    match claim {
        Claim::Won(_) => false,
        Claim::Full { at } => at == words,
    }
}

// Claims a block, writes a word of it, reads it and releases the block.
fn visit(directory: &Directory, mut seat: DirSeat, value: u64) -> (u64, DirSeat)
    requires { seat_of seat ≡ id_of directory.now }
    ensures same { seat_of result.1 ≡ id_of directory.now }
    ensures value { result.0 ≤ value }
{
    match directory.claim(&mut seat, 2) {
        Claim::Won(block) => {
            directory.write(&mut seat, block, 1, value);
            let seen = directory.read(&mut seat, block, 1);
            directory.release(&mut seat, block);
            (seen, seat)
        }
        Claim::Full { at: _ } => (0, seat),
    }
}

// Two visits at once.
fn pair<R: Threads>(rt: &R, directory: &Directory, mut seat: DirSeat, value: u64) -> (u64, DirSeat)
    requires same { seat_of seat ≡ id_of directory.now }
    requires weight { 2 ≤ (view seat).weight }
    requires small { value < 100 }
    ensures same { seat_of result.1 ≡ id_of directory.now }
    ensures sum { result.0 < 200 }
{
    let other = directory.split(&mut seat, &[], &[]);
    let ((one, mut seat), (two, other)) = thread::join(
        rt,
        || visit(directory, seat, value),
        || visit(directory, other, value + 1),
    );
    directory.join(&mut seat, other);
    (one + two, seat)
}

// Four visits at once.
fn four<R: Threads + Sync>(rt: &R, directory: &Directory, mut seat: DirSeat) -> (u64, DirSeat)
    requires sync { IsSync R.row }
    requires same { seat_of seat ≡ id_of directory.now }
    requires weight { 4 ≤ (view seat).weight }
    ensures { seat_of result.1 ≡ id_of directory.now }
{
    let other = directory.split(&mut seat, &[], &[]);
    let ((one, mut seat), (two, other)) = thread::join(
        rt,
        || pair(rt, directory, seat, 10),
        || pair(rt, directory, other, 20),
    );
    directory.join(&mut seat, other);
    (one + two, seat)
}

#[test]
fn four_threads_claim_write_read_and_release(rt: HostRuntime) -> Result<(), Fail> {
    let (directory, seat) = Directory::new(rt.alloc(), 100)?;
    let (sum, mut seat) = four(&rt, &directory, seat);
    // Four blocks of two words and a header lie before this one, which takes all that is left.
    let last = won(directory.claim(&mut seat, 87));
    let full = is_full(directory.claim(&mut seat, 0), 100);
    assert!(rt; sum == 10 + 11 + 20 + 21 && last == 13 && full);
    Ok(())
}

// Writes two words of its own.
fn write_two(directory: &Directory, mut seat: DirSeat, block: u64, from: u64, value: u64) -> DirSeat
    requires same { seat_of seat ≡ id_of directory.now }
    requires first { OwnsWord (view seat) block from }
    requires second { OwnsWord (view seat) block (from + 1) }
    requires small { (from < 100) × (value < 100) }
    ensures same { seat_of result ≡ id_of directory.now }
    ensures view { view result ≡ written (block + 1 + (from + 1)) (value + 1)
        (written (block + 1 + from) value (view seat)) }
{
    directory.write(&mut seat, block, from, value);
    directory.write(&mut seat, block, from + 1, value + 1);
    seat
}

// The second half of a block of four words goes to a new seat.
fn hand_half(directory: &Directory, seat: &mut DirSeat, block: u64) -> DirSeat
    requires same { seat_of seat.old ≡ id_of directory.now }
    requires weight { 2 ≤ (view seat.old).weight }
    requires owned { (i : ℕ) → i < 4 → OwnsWord (view seat.old) block i }
    ensures same { (seat_of seat.new ≡ seat_of seat.old) × (seat_of result ≡ seat_of seat.old) }
    ensures left { OwnsWord (view seat.new) block 0 × OwnsWord (view seat.new) block 1 }
    ensures right { OwnsWord (view result) block 2 × OwnsWord (view result) block 3 }
    ensures shares { (i : ℕ) → i < 4
        → share_of (block + 1 + i) (view seat.new) + share_of (block + 1 + i) (view result) ≡ whole }
    ensures homes { (i : ℕ) → i < 4
        → ((cell_of (block + 1 + i) (view seat.new)).home ≡ block)
        × ((cell_of (block + 1 + i) (view result)).home ≡ block) }
{
    let hand = Part {
        block,
        span: Some((2, 2)),
    };
    directory.split(seat, &[hand], &[])
}

// The two halves of a block of four words are written at once.
fn halves<R: Threads>(rt: &R, directory: &Directory, mut seat: DirSeat, block: u64) -> DirSeat
    requires same { seat_of seat ≡ id_of directory.now }
    requires weight { 2 ≤ (view seat).weight }
    requires owned { (i : ℕ) → i < 4 → OwnsWord (view seat) block i }
    ensures same { seat_of result ≡ id_of directory.now }
    ensures owned { (i : ℕ) → i < 4 → OwnsWord (view result) block i }
{
    let other = hand_half(directory, &mut seat, block);
    let (mut seat, other) = thread::join(
        rt,
        || write_two(directory, seat, block, 0, 3),
        || write_two(directory, other, block, 2, 5),
    );
    directory.join(&mut seat, other);
    seat
}

#[test]
fn the_halves_of_a_block_are_written_apart(rt: HostRuntime) -> Result<(), Fail> {
    let (directory, mut seat) = Directory::new(rt.alloc(), 100)?;
    let Claim::Won(block) = directory.claim(&mut seat, 4) else {
        panic!(rt; "no room")
    };
    let mut seat = halves(&rt, &directory, seat, block);
    let first = directory.read(&mut seat, block, 0);
    let second = directory.read(&mut seat, block, 1);
    let third = directory.read(&mut seat, block, 2);
    let fourth = directory.read(&mut seat, block, 3);
    assert!(rt; first == 3 && second == 4 && third == 5 && fourth == 6);
    Ok(())
}

// Reads the second word.
fn look(directory: &Directory, mut seat: DirSeat, block: u64) -> (u64, DirSeat)
    requires same { seat_of seat ≡ id_of directory.now }
    requires held { HasWord (view seat) block 1 }
    ensures same { seat_of result.1 ≡ id_of directory.now }
    ensures view { view result.1 ≡ view seat }
{
    let seen = directory.read(&mut seat, block, 1);
    (seen, seat)
}

// A block of two words is lent to a new seat.
fn lend(directory: &Directory, seat: &mut DirSeat, block: u64) -> DirSeat
    requires same { seat_of seat.old ≡ id_of directory.now }
    requires weight { 2 ≤ (view seat.old).weight }
    requires whole { IsWhole (view seat.old) block 2 }
    ensures same { (seat_of seat.new ≡ seat_of seat.old) × (seat_of result ≡ seat_of seat.old) }
    ensures left { HasWord (view seat.new) block 1 }
    ensures right { HasWord (view result) block 1 }
    ensures whole { IsWhole (joined (view seat.new) (view result)) block 2 }
{
    let part = Part { block, span: None };
    directory.split(seat, &[], &[part])
}

// Both sides read a lent block at once.
fn look_twice<R: Threads>(
    rt: &R,
    directory: &Directory,
    mut seat: DirSeat,
    block: u64,
) -> (u64, u64, DirSeat)
    requires same { seat_of seat ≡ id_of directory.now }
    requires weight { 2 ≤ (view seat).weight }
    requires whole { IsWhole (view seat) block 2 }
    ensures same { seat_of result.2 ≡ id_of directory.now }
    ensures whole { IsWhole (view result.2) block 2 }
{
    let other = lend(directory, &mut seat, block);
    let ((one, mut seat), (two, other)) = thread::join(
        rt,
        || look(directory, seat, block),
        || look(directory, other, block),
    );
    directory.join(&mut seat, other);
    (one, two, seat)
}

#[test]
fn a_lent_block_is_read_by_both_and_whole_again(rt: HostRuntime) -> Result<(), Fail> {
    let (directory, mut seat) = Directory::new(rt.alloc(), 100)?;
    let Claim::Won(block) = directory.claim(&mut seat, 2) else {
        panic!(rt; "no room")
    };
    directory.write(&mut seat, block, 1, 9);
    let (one, two, mut seat) = look_twice(&rt, &directory, seat, block);
    directory.release(&mut seat, block);
    assert!(rt; one == 9 && two == 9);
    Ok(())
}

#[test]
fn full_comes_at_the_edge(rt: HostRuntime) -> Result<(), Fail> {
    let (directory, mut seat) = Directory::new(rt.alloc(), 1)?;
    let mut other = directory.split(&mut seat, &[], &[]);
    let too_long = is_full(directory.claim(&mut seat, u64::MAX), 0);
    let first = won(directory.claim(&mut seat, 0));
    let full = is_full(directory.claim(&mut seat, 0), 1);
    let still_too_long = is_full(directory.claim(&mut seat, u64::MAX), 1);
    // This one walks past the other's block.
    let other_full = is_full(directory.claim(&mut other, 0), 1);
    assert!(rt; too_long && first == 1 && full && still_too_long && other_full);
    Ok(())
}
