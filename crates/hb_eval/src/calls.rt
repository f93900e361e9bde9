//! How a method is called.

ghost use Rattle.std.specs.Prelude.{◌≡◌, ◌+◌, ◌-◌, ◌<◌, ◌≤◌, ◌++◌, [], ◌∷◌, ℕ, List, length, map, take, drop, slice_get, get_or, suc, IfOk, OnOk, Some, None, Ok, Err, true, false, vec_len, vec_capacity};
ghost use mathlib.Core.List.{IsPrefix};
ghost use Rattle.hb_tree.specs.declared.parts.Body.{Body};
ghost use Rattle.hb_tree.specs.declared.limits.TheConstants.{ARGUMENTS_MAX};
ghost use Rattle.hb_tree.specs.Canon.{bytes_at};
ghost use Rattle.hb_tree.specs.Nodes.{params_of};
ghost use Rattle.hb_tree.specs.TreeAt.{IsExprAt, tree_at};
ghost use Rattle.hb_names.specs.Names.{Differ, Name, place};
ghost use Rattle.hb_types.specs.declared.types.TheConstants.{PARAMS_MAX};
ghost use Rattle.hb_names.specs.declared.names.TheConstants.{NAMES_MAX};
ghost use Rattle.hb_tables.specs.declared.entry.Entry.{Entry};
ghost use Rattle.hb_eval.specs.declared.state.Hand.TheVariants as hands;
ghost use Rattle.hb_eval.specs.declared.value.Value.{Value as Values};
ghost use Rattle.hb_eval.specs.declared.stop.Stop.TheVariants.{Full};
ghost use Rattle.hb_call.specs.Growth.{Grown};
ghost use Rattle.hb_call.specs.OwnCache.{IsTrueCache, KeepsChecks};
ghost use Rattle.hb_eval.specs.declared.cont.Cont.TheVariants as cont;
ghost use Rattle.hb_eval.specs.declared.value.Value.TheVariants as value;
ghost use Rattle.hb_eval.specs.Calls as calls;
ghost use Rattle.hb_eval.specs.Machine.{arguments_from};
ghost use Rattle.hb_eval.specs.Steps.{IsCall, Steady, arguments_in, weigh_push};
ghost use Rattle.hb_eval.specs.Stacks.{AllKnown};
ghost use Rattle.hb_eval.specs.Turns.{Goes, MayCall, Reads, Ready, Turned, after, with_operands, with_value};
ghost use Rattle.hb_eval.specs.Entries.{IsPlaced, asked_again, calling, counted, entered, refusal};
ghost use Rattle.hb_eval.specs.Gathering.{Shares};
ghost use Rattle.hb_eval.specs.Holding.{Holding, frames_of};
ghost use Rattle.hb_eval.specs.Staying.{Stays};

use crate::arguments::kinds;
use crate::blocks::start_block;
use crate::cont::Cont;
use crate::framed::Framed;
use crate::moves::{first, halt, take, under};
use crate::state::{Hand, Move, State};
use crate::stop::Stop;
use crate::value::Value;
use hb_call::{CallFail, Entered, Frame, Share, enter};
use hb_names::{NameFail, Names};
use hb_tables::desk::Desk;
use hb_tables::entry::{By, Verdict};
use hb_tree::node::{Node, arguments};
use hb_tree::parts::Body;
use hb_tree::program::Program;
use hb_types::ids::{CallNo, ClassId, NameId, NodeId};
use std::alloc::{AllocError, Global};
use std::mem;

/// How many frames of a script are live at once, at most.
pub const FRAMES_MAX: usize = 4_096;

/// The receiver of a call is there.
#[inline(always)]
pub(crate) fn receiver<D: Desk, N: Names>(
    alloc: Global,
    prog: &Program,
    desk: &mut D,
    names: &mut N,
    id: NodeId,
    state: &mut State,
    conts: &mut Vec<Cont>,
    frames: &mut Vec<Framed>,
    share: &mut Share,
) -> Result<Hand, AllocError>
    requires ready { Ready prog.now (cont.Receiver id) frames.old.items state.old }
    requires holding { Holding (D.fixed desk.old).caller (state.old.made + 1) (frames_of frames.old.items) (D.front desk.old) }
    requires cache { IsTrueCache prog.now (N.known names.old) (N.asked names.old) (D.fixed desk.old).caller (D.front desk.old) state.old.cache }
    ensures turned { IfOk result (Turned prog.now (N.known names.new) (D.fixed desk.old).caller (D.front desk.old) (D.front desk.new) (0) 0 1 2 frames.old.items state.old frames.new.items state.new
        (with_value prog.now (cont.Receiver id) frames.old.items state.old) conts.old.items conts.new.items) }
    ensures timed { (state.new.begun ≡ state.old.begun) × (state.new.fuel ≡ state.old.fuel) }
    ensures holding { Holding (D.fixed desk.old).caller (state.new.made + 1) (frames_of frames.new.items) (D.front desk.new) }
    ensures stays { Stays (D.fixed desk.old) (D.fixed desk.new) (D.front desk.old) (D.front desk.new) (N.known names.old) (N.known names.new) }
    ensures grown { OnOk result (Grown prog.now (D.fixed desk.old).caller (N.known names.new) (N.asked names.old) (N.asked names.new) (D.front desk.old) (D.front desk.new)) }
    ensures own { OnOk result (KeepsChecks prog.now (D.fixed desk.old).caller (N.known names.old) (N.known names.new) (N.asked names.old) (N.asked names.new) (D.front desk.old) (D.front desk.new) state.old.cache state.new.cache) }
    ensures shares { OnOk result (Shares prog.now (N.known names.new) (D.fixed desk.old).caller (D.front desk.old) (D.front desk.new) share.old share.new) }
    ensures alike { N.alike names.old names.new }
{
    let value = mem::replace(&mut state.acc, Value::Nil);
    state.operands.push(value)?;
    next_argument(alloc, prog, desk, names, id, 0, state, conts, frames, share)
}

/// An argument of a call is there, behind so many others.
#[inline(always)]
pub(crate) fn argument<D: Desk, N: Names>(
    alloc: Global,
    prog: &Program,
    desk: &mut D,
    names: &mut N,
    id: NodeId,
    count: u8,
    state: &mut State,
    conts: &mut Vec<Cont>,
    frames: &mut Vec<Framed>,
    share: &mut Share,
) -> Result<Hand, AllocError>
    requires ready { Ready prog.now (cont.Arguments id count) frames.old.items state.old }
    requires holding { Holding (D.fixed desk.old).caller (state.old.made + 1) (frames_of frames.old.items) (D.front desk.old) }
    requires cache { IsTrueCache prog.now (N.known names.old) (N.asked names.old) (D.fixed desk.old).caller (D.front desk.old) state.old.cache }
    ensures turned { IfOk result (Turned prog.now (N.known names.new) (D.fixed desk.old).caller (D.front desk.old) (D.front desk.new) (suc count) 0 1 2 frames.old.items state.old frames.new.items state.new
        (with_value prog.now (cont.Arguments id count) frames.old.items state.old) conts.old.items conts.new.items) }
    ensures timed { (state.new.begun ≡ state.old.begun) × (state.new.fuel ≡ state.old.fuel) }
    ensures holding { Holding (D.fixed desk.old).caller (state.new.made + 1) (frames_of frames.new.items) (D.front desk.new) }
    ensures stays { Stays (D.fixed desk.old) (D.fixed desk.new) (D.front desk.old) (D.front desk.new) (N.known names.old) (N.known names.new) }
    ensures grown { OnOk result (Grown prog.now (D.fixed desk.old).caller (N.known names.new) (N.asked names.old) (N.asked names.new) (D.front desk.old) (D.front desk.new)) }
    ensures own { OnOk result (KeepsChecks prog.now (D.fixed desk.old).caller (N.known names.old) (N.known names.new) (N.asked names.old) (N.asked names.new) (D.front desk.old) (D.front desk.new) state.old.cache state.new.cache) }
    ensures shares { OnOk result (Shares prog.now (N.known names.new) (D.fixed desk.old).caller (D.front desk.old) (D.front desk.new) share.old share.new) }
    ensures alike { N.alike names.old names.new }
{
    let value = mem::replace(&mut state.acc, Value::Nil);
    state.operands.push(value)?;
    next_argument(
        alloc,
        prog,
        desk,
        names,
        id,
        count + 1,
        state,
        conts,
        frames,
        share,
    )
}

// The next argument begins, or all are there.
#[inline(always)]
fn next_argument<D: Desk, N: Names>(
    alloc: Global,
    prog: &Program,
    desk: &mut D,
    names: &mut N,
    id: NodeId,
    count: u8,
    state: &mut State,
    conts: &mut Vec<Cont>,
    frames: &mut Vec<Framed>,
    share: &mut Share,
) -> Result<Hand, AllocError>
    requires call { IsExprAt prog.now id.0 × IsCall (tree_at prog.now id.0) }
    requires count { count ≤ arguments_in (tree_at prog.now id.0) }
    requires there { count < length state.old.operands.items }
    requires may { MayCall state.old }
    requires known { AllKnown prog.now frames.old.items state.old }
    requires holding { Holding (D.fixed desk.old).caller (state.old.made + 1) (frames_of frames.old.items) (D.front desk.old) }
    requires cache { IsTrueCache prog.now (N.known names.old) (N.asked names.old) (D.fixed desk.old).caller (D.front desk.old) state.old.cache }
    ensures turned { IfOk result (Turned prog.now (N.known names.new) (D.fixed desk.old).caller (D.front desk.old) (D.front desk.new) (suc count) 0 1 2 frames.old.items state.old frames.new.items state.new
        (with_operands prog.now (length state.old.operands.items - count - 1) (λ w room vs s. arguments_from w room (tree_at prog.now id.0) count vs s) frames.old.items state.old) conts.old.items conts.new.items) }
    ensures timed { (state.new.begun ≡ state.old.begun) × (state.new.fuel ≡ state.old.fuel) }
    ensures holding { Holding (D.fixed desk.old).caller (state.new.made + 1) (frames_of frames.new.items) (D.front desk.new) }
    ensures stays { Stays (D.fixed desk.old) (D.fixed desk.new) (D.front desk.old) (D.front desk.new) (N.known names.old) (N.known names.new) }
    ensures grown { OnOk result (Grown prog.now (D.fixed desk.old).caller (N.known names.new) (N.asked names.old) (N.asked names.new) (D.front desk.old) (D.front desk.new)) }
    ensures own { OnOk result (KeepsChecks prog.now (D.fixed desk.old).caller (N.known names.old) (N.known names.new) (N.asked names.old) (N.asked names.new) (D.front desk.old) (D.front desk.new) state.old.cache state.new.cache) }
    ensures shares { OnOk result (Shares prog.now (N.known names.new) (D.fixed desk.old).caller (D.front desk.old) (D.front desk.new) share.old share.new) }
    ensures alike { N.alike names.old names.new }
{
    match prog.node(id) {
        Node::Call(_, name, args) => {
            let ids = arguments(&args);
            let next = count as usize;
            if next < ids.len() {
                take(conts, first(state, Cont::Arguments(id, count), ids[next]))
            } else {
                let at = state.operands.len() - next - 1;
                call(
                    alloc, prog, desk, names, id, name, at, state, conts, frames, share,
                )
            }
        }
        _ => unreachable!(),
    }
}

// The class of the object on which a method is called.
#[inline(always)]
fn receiver_class(value: &Value) -> Result<ClassId, Stop>
    ensures { result ≡ calls.receiver value.now }
{
    match value {
        Value::Object(class) => Ok(*class),
        Value::Nil => Err(Stop::NilValue),
        _ => Err(Stop::BadOperand),
    }
}

// A call stops the script: its receiver and its arguments go.
#[cold]
#[inline(never)]
fn refuse(state: &mut State, at: usize, stop: Stop, id: NodeId) -> Move
    requires { at ≤ length state.old.operands.items }
    ensures value { result ≡ record { under = None; push = None; hand = hands.Stops } }
    ensures state { state.new ≡ record state.old { operands = state.new.operands; stop = stop; at = id } }
    ensures cut { state.new.operands.items ≡ take at state.old.operands.items }
{
    state.operands.truncate(at);
    halt(state, stop, id)
}

// A call whose receiver and so many arguments are there, and what it leaves to do.
#[inline(always)]
fn call_here<D: Desk, N: Names>(
    alloc: Global,
    prog: &Program,
    desk: &mut D,
    names: &mut N,
    id: NodeId,
    name: NameId,
    at: usize,
    state: &mut State,
    frames: &mut Vec<Framed>,
    share: &mut Share,
) -> Result<Move, AllocError>
    requires name { name.0 < length prog.now.names }
    requires at { at < length state.old.operands.items }
    requires short { length state.old.operands.items ≤ at + 1 + ARGUMENTS_MAX }
    requires may { MayCall state.old }
    requires known { AllKnown prog.now frames.old.items state.old }
    requires holding { Holding (D.fixed desk.old).caller (state.old.made + 1) (frames_of frames.old.items) (D.front desk.old) }
    requires cache { IsTrueCache prog.now (N.known names.old) (N.asked names.old) (D.fixed desk.old).caller (D.front desk.old) state.old.cache }
    ensures reads { IfOk result (λ m. Reads (N.known names.new) (D.fixed desk.old).caller (D.front desk.old) (D.front desk.new) state.old state.new
        (with_operands prog.now at (λ w room vs s. calling w room id.0 name.0 vs s) frames.old.items state.old) (after prog.now m frames.new.items state.new)) }
    ensures goes { IfOk result (Goes prog.now (length state.old.operands.items - at) 0 1 frames.old.items state.old frames.new.items state.new) }
    ensures light { IfOk result (λ m. weigh_push m.under < 2) }
    ensures timed { (state.new.begun ≡ state.old.begun) × (state.new.fuel ≡ state.old.fuel) }
    ensures holding { Holding (D.fixed desk.old).caller (state.new.made + 1) (frames_of frames.new.items) (D.front desk.new) }
    ensures stays { Stays (D.fixed desk.old) (D.fixed desk.new) (D.front desk.old) (D.front desk.new) (N.known names.old) (N.known names.new) }
    ensures grown { OnOk result (Grown prog.now (D.fixed desk.old).caller (N.known names.new) (N.asked names.old) (N.asked names.new) (D.front desk.old) (D.front desk.new)) }
    ensures own { OnOk result (KeepsChecks prog.now (D.fixed desk.old).caller (N.known names.old) (N.known names.new) (N.asked names.old) (N.asked names.new) (D.front desk.old) (D.front desk.new) state.old.cache state.new.cache) }
    ensures shares { OnOk result (Shares prog.now (N.known names.new) (D.fixed desk.old).caller (D.front desk.old) (D.front desk.new) share.old share.new) }
    ensures alike { N.alike names.old names.new }
{
    match receiver_class(&state.operands[at]) {
        Err(stop) => Ok(refuse(state, at, stop, id)),
        Ok(_) if frames.len() >= FRAMES_MAX => Ok(refuse(state, at, Stop::Deep, id)),
        Ok(class) => decide(
            alloc, prog, desk, names, id, name, class, at, state, frames, share,
        ),
    }
}

// A call whose receiver and so many arguments are there.
#[inline(never)]
fn call<D: Desk, N: Names>(
    alloc: Global,
    prog: &Program,
    desk: &mut D,
    names: &mut N,
    id: NodeId,
    name: NameId,
    at: usize,
    state: &mut State,
    conts: &mut Vec<Cont>,
    frames: &mut Vec<Framed>,
    share: &mut Share,
) -> Result<Hand, AllocError>
    requires name { name.0 < length prog.now.names }
    requires at { at < length state.old.operands.items }
    requires short { length state.old.operands.items ≤ at + 1 + ARGUMENTS_MAX }
    requires may { MayCall state.old }
    requires known { AllKnown prog.now frames.old.items state.old }
    requires holding { Holding (D.fixed desk.old).caller (state.old.made + 1) (frames_of frames.old.items) (D.front desk.old) }
    requires cache { IsTrueCache prog.now (N.known names.old) (N.asked names.old) (D.fixed desk.old).caller (D.front desk.old) state.old.cache }
    ensures turned { IfOk result (Turned prog.now (N.known names.new) (D.fixed desk.old).caller (D.front desk.old) (D.front desk.new) (length state.old.operands.items - at) 0 1 2 frames.old.items state.old frames.new.items state.new
        (with_operands prog.now at (λ w room vs s. calling w room id.0 name.0 vs s) frames.old.items state.old) conts.old.items conts.new.items) }
    ensures timed { (state.new.begun ≡ state.old.begun) × (state.new.fuel ≡ state.old.fuel) }
    ensures holding { Holding (D.fixed desk.old).caller (state.new.made + 1) (frames_of frames.new.items) (D.front desk.new) }
    ensures stays { Stays (D.fixed desk.old) (D.fixed desk.new) (D.front desk.old) (D.front desk.new) (N.known names.old) (N.known names.new) }
    ensures grown { OnOk result (Grown prog.now (D.fixed desk.old).caller (N.known names.new) (N.asked names.old) (N.asked names.new) (D.front desk.old) (D.front desk.new)) }
    ensures own { OnOk result (KeepsChecks prog.now (D.fixed desk.old).caller (N.known names.old) (N.known names.new) (N.asked names.old) (N.asked names.new) (D.front desk.old) (D.front desk.new) state.old.cache state.new.cache) }
    ensures shares { OnOk result (Shares prog.now (N.known names.new) (D.fixed desk.old).caller (D.front desk.old) (D.front desk.new) share.old share.new) }
    ensures alike { N.alike names.old names.new }
{
    let next = call_here(alloc, prog, desk, names, id, name, at, state, frames, share)?;
    take(conts, next)
}

// A call that is to be decided. Room for its frame is there before, so that it loses no hold.
#[inline(always)]
fn decide<D: Desk, N: Names>(
    alloc: Global,
    prog: &Program,
    desk: &mut D,
    names: &mut N,
    id: NodeId,
    name: NameId,
    class: ClassId,
    at: usize,
    state: &mut State,
    frames: &mut Vec<Framed>,
    share: &mut Share,
) -> Result<Move, AllocError>
    requires name { name.0 < length prog.now.names }
    requires at { at < length state.old.operands.items }
    requires short { length state.old.operands.items ≤ at + 1 + ARGUMENTS_MAX }
    requires may { MayCall state.old }
    requires known { AllKnown prog.now frames.old.items state.old }
    requires object { (d : Values) → calls.receiver (get_or state.old.operands.items at d) ≡ Ok class }
    requires room { length frames.old.items < 4096 }
    requires holding { Holding (D.fixed desk.old).caller (state.old.made + 1) (frames_of frames.old.items) (D.front desk.old) }
    requires cache { IsTrueCache prog.now (N.known names.old) (N.asked names.old) (D.fixed desk.old).caller (D.front desk.old) state.old.cache }
    ensures reads { IfOk result (λ m. Reads (N.known names.new) (D.fixed desk.old).caller (D.front desk.old) (D.front desk.new) state.old state.new
        (with_operands prog.now at (λ w room vs s. calling w room id.0 name.0 vs s) frames.old.items state.old) (after prog.now m frames.new.items state.new)) }
    ensures goes { IfOk result (Goes prog.now (length state.old.operands.items - at) 0 1 frames.old.items state.old frames.new.items state.new) }
    ensures light { IfOk result (λ m. weigh_push m.under < 2) }
    ensures timed { (state.new.begun ≡ state.old.begun) × (state.new.fuel ≡ state.old.fuel) }
    ensures holding { Holding (D.fixed desk.old).caller (state.new.made + 1) (frames_of frames.new.items) (D.front desk.new) }
    ensures stays { Stays (D.fixed desk.old) (D.fixed desk.new) (D.front desk.old) (D.front desk.new) (N.known names.old) (N.known names.new) }
    ensures grown { OnOk result (Grown prog.now (D.fixed desk.old).caller (N.known names.new) (N.asked names.old) (N.asked names.new) (D.front desk.old) (D.front desk.new)) }
    ensures own { OnOk result (KeepsChecks prog.now (D.fixed desk.old).caller (N.known names.old) (N.known names.new) (N.asked names.old) (N.asked names.new) (D.front desk.old) (D.front desk.new) state.old.cache state.new.cache) }
    ensures shares { OnOk result (Shares prog.now (N.known names.new) (D.fixed desk.old).caller (D.front desk.old) (D.front desk.new) share.old share.new) }
    ensures alike { N.alike names.old names.new }
{
    let args = kinds(&state.operands[at + 1..]);
    frames.reserve(1)?;
    let q = CallNo(state.made + 1);
    match enter(
        alloc,
        prog,
        q,
        class,
        name,
        args,
        desk,
        names,
        &mut state.cache,
        share,
    ) {
        Ok(Entered::Frame(frame, way)) => {
            count(state, way);
            start_body(prog, frame, class, at, state, frames)
        }
        Ok(Entered::Refused(verdict)) => match stop_of(verdict) {
            Some(stop) => Ok(refused(state, at, stop, id)),
            None => Err(AllocError),
        },
        Err(CallFail::Full) => {
            if is_placed(alloc, prog, names, class, name)? {
                Ok(full(state, at, id))
            } else {
                Ok(refuse(state, at, Stop::Full, id))
            }
        }
        Err(CallFail::NoMemory) => Err(AllocError),
    }
}

// A call that entered this way is counted.
#[inline(always)]
fn count(state: &mut State, way: By)
    requires may { MayCall state.old }
    ensures { state.new ≡ counted way state.old }
{
    state.made += 1;
    state.decided += 1;
    match way {
        By::Own => state.own += 1,
        By::Shared => {}
        By::Fresh => state.fresh += 1,
    }
}

// Why the script stops at a call that was decided, where the body does not run.
fn stop_of(verdict: Verdict) -> Option<Stop>
    ensures { result ≡ refusal verdict }
{
    match verdict {
        Verdict::Enter(_) => None,
        Verdict::NoBody => Some(Stop::NoBody),
        Verdict::NoType => Some(Stop::NoType),
        Verdict::BadArgs => Some(Stop::BadArgs),
        Verdict::IllTyped(ill) => Some(Stop::IllTyped(ill)),
    }
}

// A call that was decided, and may not run.
#[cold]
#[inline(never)]
fn refused(state: &mut State, at: usize, stop: Stop, id: NodeId) -> Move
    requires at { at ≤ length state.old.operands.items }
    requires may { MayCall state.old }
    ensures value { result ≡ record { under = None; push = None; hand = hands.Stops } }
    ensures state { state.new ≡ record state.old { operands = state.new.operands; made = state.old.made + 1; decided = state.old.decided + 1; stop = stop; at = id } }
    ensures cut { state.new.operands.items ≡ take at state.old.operands.items }
{
    state.made += 1;
    state.decided += 1;
    refuse(state, at, stop, id)
}

// A call that found the list of names full while its body was checked. It has its number.
#[cold]
#[inline(never)]
fn full(state: &mut State, at: usize, id: NodeId) -> Move
    requires at { at ≤ length state.old.operands.items }
    requires may { MayCall state.old }
    ensures value { result ≡ record { under = None; push = None; hand = hands.Stops } }
    ensures state { state.new ≡ record state.old { operands = state.new.operands; made = state.old.made + 1; stop = Full; at = id } }
    ensures cut { state.new.operands.items ≡ take at state.old.operands.items }
{
    state.made += 1;
    refuse(state, at, Stop::Full, id)
}

// Whether a method has a key, where the list of names is full.
#[cold]
#[inline(never)]
fn is_placed<N: Names>(
    alloc: Global,
    prog: &Program,
    names: &mut N,
    class: ClassId,
    name: NameId,
) -> Result<bool, AllocError>
    requires { name.0 < length prog.now.names }
    ensures placed { IfOk result (λ placed. IsPlaced placed (N.known names.new) (class.0, bytes_at prog.now.names name.0)) }
    ensures asked { IfOk result (λ placed. N.asked names.new ≡ asked_again placed (N.asked names.old) (class.0, bytes_at prog.now.names name.0)) }
    ensures named { IsPrefix (N.known names.old) (N.known names.new) }
    ensures few { length (N.known names.new) ≤ NAMES_MAX }
    ensures names_differ { Differ (N.known names.new) }
    ensures alike { N.alike names.old names.new }
{
    match names.key(alloc, class, prog.name(name)) {
        Ok(_) => Ok(true),
        Err(NameFail::Full) => Ok(false),
        Err(NameFail::NoMemory) => Err(AllocError),
    }
}

// The parameters of a body.
#[inline(always)]
fn parameters(body: &Body) -> &[NameId]
    requires places { length body.now.params ≡ PARAMS_MAX }
    requires few { body.now.count ≤ PARAMS_MAX }
    ensures { map (λ x. x.0) result.now ≡ params_of body.now }
{
    &body.params[..body.count as usize]
}

// The parameters get the arguments, the operands from a place on, on top of the variables.
#[inline(always)]
fn bind(
    vars: &mut Vec<(NameId, Value)>,
    params: &[NameId],
    operands: &mut Vec<Value>,
    from: usize,
) -> Result<(), AllocError>
    requires { from ≤ length operands.old.items }
    ensures bound { OnOk result (vars.new.items ≡ vars.old.items ++ calls.bindings (map (λ x. x.0) params.now) (drop from operands.old.items)) }
    ensures below { take from operands.new.items ≡ take from operands.old.items }
    ensures size { length operands.new.items ≡ length operands.old.items }
{
    let count = params.len().min(operands.len() - from);
    vars.reserve(count)?;
    for i in 0..count {
        let value = mem::replace(&mut operands[from + i], Value::Nil);
        vars.push_reserved((params[i], value));
    }
    Ok(())
}

// Takes the operands from a place on away. There are few, whose values have moved on but for the receiver.
#[inline(always)]
fn cut(operands: &mut Vec<Value>, at: usize)
    requires { at ≤ length operands.old.items }
    ensures { operands.new.items ≡ take at operands.old.items }
{
    'cutting: while operands.len() > at {
        operands.pop();
    }
}

// The body of a call begins, in a frame of its own.
#[inline(always)]
fn start_body(
    prog: &Program,
    frame: Frame,
    class: ClassId,
    at: usize,
    state: &mut State,
    frames: &mut Vec<Framed>,
) -> Result<Move, AllocError>
    requires at { at < length state.old.operands.items }
    requires room { vec_len frames.old < vec_capacity frames.old }
    requires body { frame.body.0 < length prog.now.bodies }
    requires class { class.0 < length prog.now.classes }
    ensures reads { (known : List Name) (c : ℕ) (log : List Entry) (b : Body) → slice_get prog.now.bodies frame.body.0 ≡ Some b → IfOk result (λ m. Reads known c log log state.old state.new
        (with_operands prog.now at (λ w room vs s. entered w room frame class b vs s) frames.old.items state.old) (after prog.now m frames.new.items state.new)) }
    ensures goes { IfOk result (Goes prog.now (length state.old.operands.items - at) 0 0 frames.old.items state.old frames.new.items state.new) }
    ensures light { IfOk result (λ m. weigh_push m.under < 2) }
    ensures steady { Steady state.old state.new }
    ensures pushed { frames.new.items ≡ frames.old.items ++ record { frame = frame; base = state.old.base; class = state.old.class } ∷ [] }
{
    let body = prog.body(frame.body);
    frames.push_reserved(Framed {
        frame,
        base: state.base,
        class: state.class,
    });
    let base = state.vars.len();
    bind(
        &mut state.vars,
        parameters(&body),
        &mut state.operands,
        at + 1,
    )?;
    cut(&mut state.operands, at);
    state.base = base;
    state.class = Some(class);
    let of = start_block(prog, body.block, state);
    Ok(under(Cont::Frame, of))
}
