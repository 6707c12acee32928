//! Steps of a leaf's innermost frame, one after another: they need no look at the frames that wait.

ghost use Rattle.std.specs.Prelude.{◌≡◌, ◌≤◌, ◌<◌, ◌++◌, ◌∷◌, [], ℕ, List, slice_index, true, false};
ghost use Rattle.target_code.specs.declared.tree.Instr.{Instr};
ghost use Rattle.target_code.specs.declared.tree.Proc.{Proc};
ghost use Rattle.target_meaning.specs.Place.{list_at};
ghost use Rattle.target_meaning.specs.Stacks.{code_at};
ghost use Rattle.target_meaning.specs.Turns.{IsAt};
ghost use Rattle.target_meaning.specs.declared.place.Outer.{Outer};
ghost use Rattle.target_meaning.specs.declared.stack.Frames.{Frames};
ghost use Rattle.branch_exec.specs.Leaves.{IsSized};
ghost use Rattle.branch_exec.specs.Straight.{FrameRan, IsSide, Listed, Makes, Passed, Rests, inside, placed};
ghost use Rattle.branch_exec.specs.Went.{Ran};

use crate::leaf::Leaf;
use crate::store::{Seen, Store, Written};
use sqlite_items::at;
use target_code::{Code, Instr, Proc};
use target_meaning::advance::code_of;
use target_meaning::calc::calc;
use target_meaning::frame::{Then, test};
use target_meaning::place::{Inner, Outer, list_of};
use target_meaning::registers::word_in;
use target_meaning::settle::{Standing, settle, turn};
use target_meaning::stack::{Frame, Stack};

/// How many steps were made, and whether they came behind what was run.
#[derive(Clone, Copy)]
struct Steps {
    /// How many.
    made: u64,
    /// Whether they came behind it.
    through: bool,
}

impl Steps {
    /// No step was made.
    const NONE: Steps = Steps {
        made: 0,
        through: false,
    };
}

/// Makes the step of an instruction on registers and words, where the store has the word as it must be had. False: it was
/// not made.
fn plain<S: Store>(instr: &Instr, next: usize, frame: &mut Frame, store: &mut S) -> bool
    ensures made { (procs : List Proc) (fs : Frames) → Makes result procs fs instr.now next frame.old (S.kept store.old) frame.new (S.kept store.new) }
    ensures rests { Rests result frame.old (S.kept store.old) frame.new (S.kept store.new) }
    ensures proc { frame.new.proc ≡ frame.old.proc }
    ensures outer { frame.new.outer ≡ frame.old.outer }
    ensures at { result ≡ true → frame.new.at ≡ next }
{
    let regs = frame.regs.as_slice();
    match instr {
        Instr::Const { to, value } => {
            frame.fill(Then { to: *to, next }, *value);
            true
        }
        Instr::Mov { to, from } => {
            let word = word_in(regs, *from);
            frame.fill(Then { to: *to, next }, word);
            true
        }
        Instr::Calc {
            to,
            word,
            left,
            right,
        } => match calc(*word, word_in(regs, *left), word_in(regs, *right)) {
            Ok(number) => {
                frame.fill(Then { to: *to, next }, number);
                true
            }
            Err(_) => false,
        },
        Instr::Load { to, block, index } => {
            let block = word_in(regs, *block);
            let index = word_in(regs, *index);
            match store.read(block, index) {
                Seen::Word(word) => {
                    frame.fill(Then { to: *to, next }, word);
                    true
                }
                Seen::Outside | Seen::Unowned => false,
            }
        }
        Instr::Store {
            block,
            index,
            value,
        } => {
            let block = word_in(regs, *block);
            let index = word_in(regs, *index);
            let value = word_in(regs, *value);
            match store.write(block, index, value) {
                Written::Done => {
                    frame.go_on(next);
                    true
                }
                Written::Outside | Written::Unowned => false,
            }
        }
        _ => false,
    }
}

/// Enters an inner code of the instruction at hand, if there is memory.
fn enter(frame: &mut Frame, inner: Inner) -> bool
    ensures yes { result ≡ true → frame.new ≡ inside frame.old inner }
    ensures no { result ≡ false → frame.new ≡ frame.old }
{
    let index = frame.at;
    match frame.outer.push(Outer { index, inner }) {
        Ok(()) => {
            frame.at = 0;
            true
        }
        Err(_) => false,
    }
}

/// Leaves an inner code, and goes on at an index.
fn leave(frame: &mut Frame, next: usize)
    ensures { (os : List Outer) (o : Outer) → frame.old.outer ≡ os ++ o ∷ [] → frame.new ≡ placed frame.old os next }
{
    frame.outer.pop();
    frame.at = next;
}

/// Turns to the beginning of another inner code of the same instruction.
fn turn_to(frame: &mut Frame, inner: Inner)
    ensures { (os : List Outer) (o : Outer) → frame.old.outer ≡ os ++ o ∷ [] →
        frame.new ≡ placed frame.old (os ++ (record { index = o.index; inner = inner }) ∷ []) 0 }
{
    turn(&mut frame.outer, inner);
    frame.at = 0;
}

/// The side of an `if` that a word chooses.
fn side<'a>(word: u64, yes: &'a Code, no: &'a Code) -> (Inner, &'a [Instr])
    ensures { IsSide word yes.now no.now result.0 result.1.now }
{
    if word == 0 {
        (Inner::No, no.list.as_slice())
    } else {
        (Inner::Yes, yes.list.as_slice())
    }
}

/// Makes steps of an `if` and of what it enters, up to one that is not made here.
#[cycle(straight)]
fn run_if<S: Store>(
    procs: &[Proc],
    instr: &Instr,
    next: usize,
    frame: &mut Frame,
    most: u64,
    store: &mut S,
) -> Steps
    requires at { IsAt procs.now frame.old instr.now next }
    requires some { 0 < most }
    ensures { Passed procs.now frame.old (S.kept store.old) frame.new (S.kept store.new) most next result }
{
    let Instr::If { test, yes, no } = instr else {
        return Steps::NONE;
    };
    let (inner, list) = side(word_in(frame.regs.as_slice(), *test), yes, no);
    if !enter(frame, inner) {
        return Steps::NONE;
    }
    let steps = run_list(procs, list, frame, most - 1, store);
    if steps.through {
        leave(frame, next);
    }
    Steps {
        made: steps.made + 1,
        through: steps.through,
    }
}

/// The test of a loop: it is left where the register is 0, and else its body begins.
fn leaves(frame: &mut Frame, register: u32, next: usize) -> bool
    ensures left { result ≡ true → (slice_index frame.old.regs register ≡ 0) × ((os : List Outer) (o : Outer) →
        frame.old.outer ≡ os ++ o ∷ [] → frame.new ≡ placed frame.old os next) }
    ensures turned { result ≡ false → (slice_index frame.old.regs register ≡ 0 → ⊥) × ((os : List Outer) (o : Outer) →
        frame.old.outer ≡ os ++ o ∷ [] → frame.new ≡ placed frame.old (os ++ (record { index = o.index; inner = Inner.Body }) ∷ []) 0) }
{
    if word_in(frame.regs.as_slice(), register) == 0 {
        leave(frame, next);
        true
    } else {
        turn_to(frame, Inner::Body);
        false
    }
}

/// Makes steps of a loop and of what it enters, up to one that is not made here.
#[cycle(straight)]
fn run_while<S: Store>(
    procs: &[Proc],
    instr: &Instr,
    next: usize,
    frame: &mut Frame,
    most: u64,
    store: &mut S,
) -> Steps
    requires at { IsAt procs.now frame.old instr.now next }
    requires some { 0 < most }
    ensures { Passed procs.now frame.old (S.kept store.old) frame.new (S.kept store.new) most next result }
{
    let Instr::While { cond, test, body } = instr else {
        return Steps::NONE;
    };
    if !enter(frame, Inner::Cond) {
        return Steps::NONE;
    }
    let mut made = 1;
    'turns: while made < most {
        let tested = run_list(procs, cond.list.as_slice(), frame, most - made, store);
        made += tested.made;
        if !tested.through {
            break;
        }
        if made >= most {
            break;
        }
        made += 1;
        if leaves(frame, *test, next) {
            return Steps {
                made,
                through: true,
            };
        }
        let turned = run_list(procs, body.list.as_slice(), frame, most - made, store);
        made += turned.made;
        if !turned.through {
            break;
        }
        turn_to(frame, Inner::Cond);
    }
    Steps {
        made,
        through: false,
    }
}

/// Makes the steps of an instruction and of what it enters, up to one that is not made here.
#[cycle(straight)]
fn run_instr<S: Store>(
    procs: &[Proc],
    instr: &Instr,
    next: usize,
    frame: &mut Frame,
    most: u64,
    store: &mut S,
) -> Steps
    requires at { IsAt procs.now frame.old instr.now next }
    requires some { 0 < most }
    ensures { Passed procs.now frame.old (S.kept store.old) frame.new (S.kept store.new) most next result }
{
    match instr {
        Instr::If { .. } => run_if(procs, instr, next, frame, most, store),
        Instr::While { .. } => run_while(procs, instr, next, frame, most, store),
        _ => {
            if plain(instr, next, frame, store) {
                Steps {
                    made: 1,
                    through: true,
                }
            } else {
                Steps::NONE
            }
        }
    }
}

/// Makes steps of one list of instructions, up to its end or to one that is not made here.
#[cycle(straight)]
fn run_list<S: Store>(
    procs: &[Proc],
    list: &[Instr],
    frame: &mut Frame,
    most: u64,
    store: &mut S,
) -> Steps
    requires { list.now ≡ list_at (code_at procs.now frame.old.proc) frame.old.outer }
    ensures { Listed procs.now list.now frame.old (S.kept store.old) frame.new (S.kept store.new) most result }
{
    let mut made = 0;
    'instructions: while made < most {
        let Some(instr) = at(list, frame.at) else {
            return Steps {
                made,
                through: true,
            };
        };
        let steps = run_instr(procs, instr, frame.at + 1, frame, most - made, store);
        made += steps.made;
        if !steps.through {
            break;
        }
    }
    Steps {
        made,
        through: false,
    }
}

/// Makes steps behind the end of a list: the test of a loop, or an instruction behind the inner codes that are through.
fn run_on<S: Store>(procs: &[Proc], frame: &mut Frame, most: u64, store: &mut S) -> Steps
    requires { 0 < most }
    ensures ran { FrameRan procs.now frame.old (S.kept store.old) frame.new (S.kept store.new) most result.made }
    ensures some { result.through ≡ true → 0 < result.made }
{
    match settle(code_of(procs, frame.proc), &mut frame.outer, &mut frame.at) {
        Standing::Do(instr, next) => run_instr(procs, instr, next, frame, most, store),
        Standing::Test(register, next) => {
            test(frame, register, next);
            Steps {
                made: 1,
                through: true,
            }
        }
        Standing::Return => Steps::NONE,
    }
}

/// Makes steps of a frame, up to one that is not made here.
fn run_frame<S: Store>(procs: &[Proc], frame: &mut Frame, most: u64, store: &mut S) -> u64
    ensures { FrameRan procs.now frame.old (S.kept store.old) frame.new (S.kept store.new) most result }
{
    let mut made = 0;
    'lists: while made < most {
        let list = list_of(code_of(procs, frame.proc), frame.outer.as_slice());
        let steps = run_list(procs, list, frame, most - made, store);
        made += steps.made;
        if !steps.through || made >= most {
            break;
        }
        let more = run_on(procs, frame, most - made, store);
        made += more.made;
        if !more.through {
            break;
        }
    }
    made
}

/// Makes steps of a leaf's innermost frame, of which fewer than the leaf may make. None may be made.
pub fn run_straight<S: Store>(procs: &[Proc], leaf: &mut Leaf, store: &mut S)
    requires unspent { leaf.old.done < leaf.old.budget }
    ensures ran { (d : ℕ) → Ran procs.now leaf.old.budget d leaf.old.stack (S.kept store.old) leaf.old.done leaf.new.stack (S.kept store.new) leaf.new.done }
    ensures sized { IsSized procs.now leaf.old.stack leaf.old.waiting → IsSized procs.now leaf.new.stack leaf.new.waiting }
    ensures grows { leaf.old.done ≤ leaf.new.done }
    ensures unspent { leaf.new.done < leaf.new.budget }
    ensures path { leaf.new.path ≡ leaf.old.path }
    ensures budget { leaf.new.budget ≡ leaf.old.budget }
{
    let most = leaf.budget - leaf.done - 1;
    if let Stack::Run(frames) = &mut leaf.stack {
        leaf.done += run_frame(procs, &mut frames.top, most, store);
    }
}
