//! What stands in the lines of a text so far. A line is taken only where it may stand.

ghost use Rattle.std.specs.Prelude.{◌≡◌, ◌++◌, ◌∷◌, [], IfOk, Some, nat_eq, true};
ghost use Rattle.target_code.specs.declared.tree.Instr.{out-Instr};
ghost use Rattle.target_lines.specs.declared.line.Phrase.TheVariants as phrase;
ghost use Rattle.target_lines.specs.Programs as programs;
ghost use Rattle.target_lines.specs.Programs.{line};
ghost use Rattle.target_judge.specs.Shape as shape;
ghost use Rattle.target_judge.specs.Taking as taking;
ghost use Rattle.target_judge.specs.States as states;

use sqlite_items::Items;
use std::alloc::{AllocError, Global};
use target_code::{Code, InParam, Instr, Name, Proc, Rep};
use target_lines::line::{Line, Phrase};

/// An open block, with what stands before its instruction.
#[derive(Drop)]
pub enum Frame {
    /// The first block of an `if`.
    Yes {
        test: u32,
        before: Items<Instr>,
    },
    /// The second, with the first.
    No {
        test: u32,
        chosen: Items<Instr>,
        before: Items<Instr>,
    },
    /// The first block of a `while`.
    Cond {
        before: Items<Instr>,
    },
    /// The second, with the first and its test.
    Body {
        cond: Items<Instr>,
        test: u32,
        before: Items<Instr>,
    },
}

/// The open blocks, the innermost last, and the instructions of the innermost.
#[derive(Drop)]
pub struct Place {
    pub frames: Items<Frame>,
    pub items: Items<Instr>,
}

/// The first line of a procedure.
#[derive(Drop)]
pub struct Header {
    pub name: Name,
    pub args: u32,
    pub regs: u32,
}

/// Where the lines so far end.
#[derive(Drop)]
pub enum Spot {
    /// Between procedures.
    Between,
    /// Inside the code of one.
    Inside(Header, Place),
    /// Behind the results of one.
    Ended(Header, Items<Instr>, Items<u32>),
}

/// What stands in the lines so far.
#[derive(Drop)]
pub struct State {
    pub ins: Items<InParam>,
    pub outs: Items<Rep>,
    pub procs: Items<Proc>,
    pub spot: Spot,
}

/// Inputs, results and procedures.
#[derive(Drop)]
struct Heads {
    ins: Items<InParam>,
    outs: Items<Rep>,
    procs: Items<Proc>,
}

/// What stands there with this behind it.
fn at(heads: Heads, spot: Spot) -> State
    ensures { states.state_of result ≡ taking.state heads.ins heads.outs heads.procs (states.spot_of spot) }
{
    let Heads { ins, outs, procs } = heads;
    State {
        ins,
        outs,
        procs,
        spot,
    }
}

// ---- code

/// Whether an instruction takes one line.
fn is_flat(instr: &Instr) -> bool
    ensures { result ≡ programs.is_flat (out-Instr instr.now) }
{
    !matches!(instr, Instr::If { .. } | Instr::While { .. })
}

/// Begins a block.
fn begin(alloc: Global, mut frames: Items<Frame>, frame: Frame) -> Result<Place, AllocError>
    ensures { IfOk result (λ p. states.place_of p ≡ shape.place (states.frame_of frame ∷ states.frames_of frames) []) }
{
    match frames.push(frame) {
        Ok(()) => Ok(Place {
            frames,
            items: Items::new(alloc),
        }),
        Err(error) => {
            drop(frames);
            Err(error)
        }
    }
}

/// Begins the first block of an instruction, unless 100 are open.
fn open(alloc: Global, frames: Items<Frame>, frame: Frame) -> Result<Option<Place>, AllocError>
    ensures { IfOk result (λ p. states.if_there states.place_of p ≡ shape.opens (states.frames_of frames) (states.frame_of frame)) }
{
    if frames.len() < 100 {
        return Ok(Some(begin(alloc, frames, frame)?));
    }
    drop((frames, frame));
    Ok(None)
}

/// Puts an instruction behind others.
fn put(
    frames: Items<Frame>,
    mut items: Items<Instr>,
    instr: Instr,
) -> Result<Option<Place>, AllocError>
    ensures { IfOk result (λ p. states.if_there states.place_of p ≡ Some (shape.place (states.frames_of frames) (items ++ instr ∷ []))) }
{
    match items.push(instr) {
        Ok(()) => Ok(Some(Place { frames, items })),
        Err(error) => {
            drop((frames, items));
            Err(error)
        }
    }
}

/// A word at the level of the innermost block's instructions.
fn go(alloc: Global, place: Place, phrase: &Phrase) -> Result<Option<Place>, AllocError>
    requires { taking.is_word phrase.now ≡ true }
    ensures { IfOk result (λ p. states.if_there states.place_of p ≡ shape.goes phrase.now (states.place_of place)) }
{
    let Place { frames, items } = place;
    match phrase {
        Phrase::If(test) => open(
            alloc,
            frames,
            Frame::Yes {
                test: *test,
                before: items,
            },
        ),
        Phrase::While => open(alloc, frames, Frame::Cond { before: items }),
        _ => {
            drop((frames, items));
            Ok(None)
        }
    }
}

/// A line at the level of the instruction whose block is the innermost, which is that of the frame.
fn turn_at(
    alloc: Global,
    frames: Items<Frame>,
    frame: Frame,
    items: Items<Instr>,
    phrase: &Phrase,
) -> Result<Option<Place>, AllocError>
    ensures { IfOk result (λ p. states.if_there states.place_of p ≡ shape.turns phrase.now items (states.frame_of frame ∷ states.frames_of frames)) }
{
    match frame {
        Frame::Yes { test, before } => match phrase {
            Phrase::Else => {
                let next = Frame::No {
                    test,
                    chosen: items,
                    before,
                };
                Ok(Some(begin(alloc, frames, next)?))
            }
            _ => {
                drop((frames, items, before));
                Ok(None)
            }
        },
        Frame::No {
            test,
            chosen,
            before,
        } => match phrase {
            Phrase::End => {
                let yes = Code { list: chosen };
                let no = Code { list: items };
                put(frames, before, Instr::If { test, yes, no })
            }
            _ => {
                drop((frames, items, (chosen, before)));
                Ok(None)
            }
        },
        Frame::Cond { before } => match phrase {
            Phrase::Do(test) => {
                let next = Frame::Body {
                    cond: items,
                    test: *test,
                    before,
                };
                Ok(Some(begin(alloc, frames, next)?))
            }
            _ => {
                drop((frames, items, before));
                Ok(None)
            }
        },
        Frame::Body { cond, test, before } => match phrase {
            Phrase::End => {
                let cond = Code { list: cond };
                let body = Code { list: items };
                put(frames, before, Instr::While { cond, test, body })
            }
            _ => {
                drop((frames, items, (cond, before)));
                Ok(None)
            }
        },
    }
}

/// A line at the level of the instruction whose block is the innermost.
fn turn(alloc: Global, place: Place, phrase: &Phrase) -> Result<Option<Place>, AllocError>
    ensures { IfOk result (λ p. states.if_there states.place_of p ≡ shape.turns phrase.now place.items (states.frames_of place.frames)) }
{
    let Place { mut frames, items } = place;
    match frames.pop() {
        Some(frame) => turn_at(alloc, frames, frame, items, phrase),
        None => {
            drop((frames, items));
            Ok(None)
        }
    }
}

/// A line with a word.
#[tactic(auto, unfolding(crate::specs::Shape::takes))]
fn take_word(
    alloc: Global,
    place: Place,
    level: u64,
    phrase: &Phrase,
) -> Result<Option<Place>, AllocError>
    requires { taking.is_word phrase.now ≡ true }
    ensures { IfOk result (λ p. states.if_there states.place_of p ≡ shape.takes (line level phrase.now) (states.place_of place)) }
{
    let opened = place.frames.len() as u64;
    if level == opened {
        turn(alloc, place, phrase)
    } else if level > opened && level - opened == 1 {
        go(alloc, place, phrase)
    } else {
        drop(place);
        Ok(None)
    }
}

/// A line with an instruction.
#[tactic(auto, unfolding(crate::specs::Shape::takes))]
fn take_instr(place: Place, level: u64, instr: Instr) -> Result<Option<Place>, AllocError>
    ensures { IfOk result (λ p. states.if_there states.place_of p ≡ shape.takes (line level (phrase.Plain instr)) (states.place_of place)) }
{
    let opened = place.frames.len() as u64;
    if level > opened && level - opened == 1 && is_flat(&instr) {
        let Place { frames, items } = place;
        put(frames, items, instr)
    } else {
        drop((place, instr));
        Ok(None)
    }
}

// ---- programs

/// The results of a procedure, which stand where no block is open.
fn take_ret(header: Header, place: Place, level: u64, list: Items<u32>) -> Option<Spot>
    ensures { states.if_there states.spot_of result ≡
        shape.and_then (shape.guard (nat_eq level 1) (phrase.Ret list)) (λ p. taking.take_ret (states.header_of header) p (states.frames_of place.frames) place.items) }
{
    let Place { mut frames, items } = place;
    if level != 1 {
        drop((header, frames, (items, list)));
        return None;
    }
    match frames.pop() {
        None => {
            drop(frames);
            Some(Spot::Ended(header, items, list))
        }
        Some(frame) => {
            drop((frame, header, (frames, items, list)));
            None
        }
    }
}

/// A line inside a procedure, with an instruction.
fn take_plain(
    header: Header,
    place: Place,
    level: u64,
    instr: Instr,
) -> Result<Option<Spot>, AllocError>
    ensures { let l = line level (phrase.Plain instr) in
        IfOk result (λ s. states.if_there states.spot_of s ≡ taking.take_inside (states.header_of header) l (states.place_of place) (shape.takes l (states.place_of place))) }
{
    match take_instr(place, level, instr) {
        Ok(Some(place)) => Ok(Some(Spot::Inside(header, place))),
        Ok(None) => {
            drop(header);
            Ok(None)
        }
        Err(error) => {
            drop(header);
            Err(error)
        }
    }
}

/// A line inside a procedure, with a word.
fn take_block(
    alloc: Global,
    header: Header,
    place: Place,
    level: u64,
    phrase: &Phrase,
) -> Result<Option<Spot>, AllocError>
    requires { taking.is_word phrase.now ≡ true }
    ensures { let l = line level phrase.now in
        IfOk result (λ s. states.if_there states.spot_of s ≡ taking.take_inside (states.header_of header) l (states.place_of place) (shape.takes l (states.place_of place))) }
{
    match take_word(alloc, place, level, phrase) {
        Ok(Some(place)) => Ok(Some(Spot::Inside(header, place))),
        Ok(None) => {
            drop(header);
            Ok(None)
        }
        Err(error) => {
            drop(header);
            Err(error)
        }
    }
}

/// A line inside a procedure.
fn take_inside(
    alloc: Global,
    header: Header,
    place: Place,
    line: Line,
) -> Result<Option<Spot>, AllocError>
    ensures { IfOk result (λ s. states.if_there states.spot_of s ≡
        taking.take_inside (states.header_of header) line (states.place_of place) (shape.takes line (states.place_of place))) }
{
    let Line { level, phrase } = line;
    match phrase {
        Phrase::Ret(list) => Ok(take_ret(header, place, level, list)),
        Phrase::Plain(instr) => take_plain(header, place, level, instr),
        word => {
            let spot = take_block(alloc, header, place, level, &word);
            drop(word);
            spot
        }
    }
}

/// An input, which stands before results and procedures.
fn take_in(heads: Heads, param: InParam) -> Result<Option<State>, AllocError>
    ensures { IfOk result (λ s. states.if_there states.state_of s ≡ taking.take_between (phrase.In param) heads.ins heads.outs heads.procs) }
{
    let Heads {
        mut ins,
        outs,
        procs,
    } = heads;
    if !outs.is_empty() || !procs.is_empty() {
        drop((param, (ins, outs, procs)));
        return Ok(None);
    }
    match ins.push(param) {
        Ok(()) => Ok(Some(at(Heads { ins, outs, procs }, Spot::Between))),
        Err(error) => {
            drop((ins, outs, procs));
            Err(error)
        }
    }
}

/// A result, which stands before procedures.
fn take_out(heads: Heads, rep: Rep) -> Result<Option<State>, AllocError>
    ensures { IfOk result (λ s. states.if_there states.state_of s ≡ taking.take_between (phrase.Out rep) heads.ins heads.outs heads.procs) }
{
    let Heads {
        ins,
        mut outs,
        procs,
    } = heads;
    if !procs.is_empty() {
        drop((ins, outs, procs));
        return Ok(None);
    }
    match outs.push(rep) {
        Ok(()) => Ok(Some(at(Heads { ins, outs, procs }, Spot::Between))),
        Err(error) => {
            drop((ins, outs, procs));
            Err(error)
        }
    }
}

/// The first line of a procedure.
fn take_proc(alloc: Global, heads: Heads, header: Header) -> State
    ensures { states.state_of result ≡ taking.state heads.ins heads.outs heads.procs (taking.Inside (states.header_of header) (shape.place [] [])) }
{
    let place = Place {
        frames: Items::new(alloc),
        items: Items::new(alloc),
    };
    at(heads, Spot::Inside(header, place))
}

/// A line between procedures.
fn take_between(alloc: Global, heads: Heads, line: Line) -> Result<Option<State>, AllocError>
    ensures { IfOk result (λ s. states.if_there states.state_of s ≡
        shape.and_then (shape.guard (nat_eq line.level 0) line.phrase) (λ p. taking.take_between p heads.ins heads.outs heads.procs)) }
{
    let Line { level, phrase } = line;
    if level != 0 {
        drop((heads, phrase));
        return Ok(None);
    }
    match phrase {
        Phrase::In(param) => take_in(heads, param),
        Phrase::Out(rep) => take_out(heads, rep),
        Phrase::Proc { name, args, regs } => {
            Ok(Some(take_proc(alloc, heads, Header { name, args, regs })))
        }
        other => {
            drop((heads, other));
            Ok(None)
        }
    }
}

/// A procedure that ends.
fn ended(header: Header, items: Items<Instr>, ret: Items<u32>) -> Proc
    ensures { result ≡ taking.proc_of (states.header_of header) items ret }
{
    let Header { name, args, regs } = header;
    Proc {
        name,
        args,
        regs,
        code: Code { list: items },
        ret,
    }
}

/// The end of a procedure, whose results have come.
fn end(
    header: Header,
    items: Items<Instr>,
    ret: Items<u32>,
    heads: Heads,
) -> Result<State, AllocError>
    ensures { IfOk result (λ s. states.state_of s ≡
        taking.state heads.ins heads.outs (heads.procs ++ taking.proc_of (states.header_of header) items ret ∷ []) taking.Between) }
{
    let Heads {
        ins,
        outs,
        mut procs,
    } = heads;
    match procs.push(ended(header, items, ret)) {
        Ok(()) => Ok(at(Heads { ins, outs, procs }, Spot::Between)),
        Err(error) => {
            drop((ins, outs, procs));
            Err(error)
        }
    }
}

/// A line behind the results of a procedure.
fn take_ended(
    header: Header,
    items: Items<Instr>,
    ret: Items<u32>,
    heads: Heads,
    line: &Line,
) -> Result<Option<State>, AllocError>
    ensures { IfOk result (λ s. states.if_there states.state_of s ≡
        shape.and_then (shape.guard (nat_eq line.now.level 0) line.now.phrase) (λ p. taking.take_end p (states.header_of header) items ret heads.ins heads.outs heads.procs)) }
{
    if line.level != 0 {
        drop(((header, items), (ret, heads)));
        return Ok(None);
    }
    match &line.phrase {
        Phrase::End => Ok(Some(end(header, items, ret, heads)?)),
        _ => {
            drop(((header, items), (ret, heads)));
            Ok(None)
        }
    }
}

/// A line more, where it may stand.
#[tactic(auto, unfolding(crate::specs::Taking::take_line))]
pub fn take(alloc: Global, state: State, line: Line) -> Result<Option<State>, AllocError>
    ensures { IfOk result (λ s. states.if_there states.state_of s ≡ taking.take_line line (states.state_of state)) }
{
    let State {
        ins,
        outs,
        procs,
        spot,
    } = state;
    let heads = Heads { ins, outs, procs };
    match spot {
        Spot::Between => take_between(alloc, heads, line),
        Spot::Inside(header, place) => match take_inside(alloc, header, place, line) {
            Ok(Some(spot)) => Ok(Some(at(heads, spot))),
            Ok(None) => {
                drop(heads);
                Ok(None)
            }
            Err(error) => {
                drop(heads);
                Err(error)
            }
        },
        Spot::Ended(header, items, ret) => {
            let state = take_ended(header, items, ret, heads, &line);
            drop(line);
            state
        }
    }
}
