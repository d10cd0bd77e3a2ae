//! What a change of a goroutine replaced, by which it is undone.

ghost use Rattle.std.specs.Prelude.{◌≡◌, ◌≤◌, ◌<◌, ◌+◌, IfErr, IsFalse, IsTrue, OnErr, OnOk, IsOk};
ghost use Rattle.gr_goros.specs.Undoing.{Fits, at_spot, before_step, entered, front, need, on_innermost, undone};
ghost use Rattle.gr_goros.specs.Views.{lines_of};

use crate::cells::put;
use crate::frame::Frame;
use crate::goroutine::Goroutine;
use crate::kept::{How, KeptUndo, Packed};
use crate::wait::Status;
use gr_base::{ChName, NoMemory, Value};
use std::mem;

/// What was in the cells of a frame to which a change wrote.
#[derive(Drop)]
pub enum Former {
    /// It wrote to none.
    Same,
    /// The cell with this number had no value.
    Nothing(u32),
    Int(u32, i64),
    Bool(u32, bool),
    Unit(u32),
    /// A channel that is nil.
    Nil(u32),
    /// A channel that is not nil.
    Channel(u32, Box<ChName>),
    /// The cell with this number held a number and the next a truth value, as an earlier receive leaves them. The truth value
    /// and the number of the cell stand before the rest, where they take no room.
    IntAndBool(bool, u32, i64),
    /// Each cell that was written to, in the order of the writes, with what was in it before.
    Each(Box<Vec<(u32, Option<Value>)>>),
}

/// Where a frame stands: the number of its function, and that of the next instruction there.
#[derive(Clone, Copy)]
pub struct Spot {
    pub function: u32,
    pub number: u32,
}

/// A frame before it went on in its function: the number of its next instruction, and what was in its cells.
#[derive(Drop)]
pub struct FrameUndo {
    pub number: u32,
    pub cells: Former,
}

/// A frame that returned, and its caller before it went on.
#[derive(Drop)]
pub struct Left {
    pub frame: Frame,
    pub caller: FrameUndo,
}

/// A goroutine before a partner met it.
#[derive(Drop)]
pub struct Met {
    pub status: Status,
    /// The number of the function of its innermost frame.
    pub function: u32,
    pub frame: FrameUndo,
}

/// What a change of a goroutine replaced, by which it is undone. Each step of its own keeps where the innermost frame stood, the
/// number of its function beside the rest where that takes no more room.
#[derive(Drop)]
pub enum GoUndo {
    /// The innermost frame, of the function with a number, went on in a step.
    Went(u32, FrameUndo),
    /// It printed a line.
    Printed(Spot),
    /// A function was called.
    Entered(Spot),
    /// A function returned to its caller.
    Left(Box<Left>),
    /// A channel was made, in a frame of the function with a number.
    Made(u32, FrameUndo),
    /// A goroutine was started.
    Began(Spot),
    /// A partner met it.
    Met(Box<Met>),
    /// It began to wait.
    Parked(Spot),
    /// It returned from its outermost frame, or ended the program.
    Finished(Box<Frame>),
    /// It stopped the program.
    Faulted(Spot),
    /// It was made ready again.
    Retried(Status),
}

/// Takes the last line off.
#[tactic(auto, using(crate::proofs::TextLemmas::lines_front))]
fn drop_line(text: &mut Vec<Vec<u8>>)
    ensures { lines_of text.new.items ≡ front (lines_of text.old.items) }
{
    let _ = text.pop();
}

impl Goroutine {
    /// Makes room for one more frame. No content changes.
    fn make_room(&mut self) -> Result<(), NoMemory>
        ensures content { self.new.content ≡ self.old.content }
        ensures ok { OnOk result (1 ≤ self.new.room) }
        ensures succeeds { 1 ≤ self.old.room → IsOk result }
        ensures grows { self.old.room ≤ self.new.room }
    {
        self.below.reserve(1)?;
        Ok(())
    }

    /// Takes a change back. It takes memory only where there is no room; refused, nothing has changed.
    pub fn undo(&mut self, undo: GoUndo) -> Result<(), (GoUndo, NoMemory)>
        requires { Fits undo self.old.content }
        ensures ok { OnOk result (self.new.content ≡ undone undo self.old.content) }
        ensures err { OnErr result (self.new.content ≡ self.old.content) }
        ensures undo_returned { IfErr result (λ e. e.0 ≡ undo) }
        ensures err_room { OnErr result (self.old.room ≤ self.new.room) }
        ensures succeeds { need undo ≤ self.old.room → IsOk result }
        ensures spends { OnOk result (self.old.room + entered undo ≤ self.new.room + need undo) }
    {
        if let GoUndo::Left(_) = undo {
            if let Err(error) = self.make_room() {
                return Err((undo, error));
            }
        }
        self.undo_step(undo);
        Ok(())
    }

    /// Takes a change back as it is kept, as `undo` does. A step over whole numbers is looked for first, since most steps are such.
    pub fn undo_kept(&mut self, undo: KeptUndo) -> Result<(), (KeptUndo, NoMemory)>
        requires { Fits undo self.old.content }
        ensures ok { OnOk result (self.new.content ≡ undone undo self.old.content) }
        ensures err { OnErr result (self.new.content ≡ self.old.content) }
        ensures undo_returned { IfErr result (λ e. e.0 ≡ undo) }
        ensures err_room { OnErr result (self.old.room ≤ self.new.room) }
        ensures succeeds { need undo ≤ self.old.room → IsOk result }
        ensures spends { OnOk result (self.old.room + entered undo ≤ self.new.room + need undo) }
    {
        if self.undo_ints(&undo) {
            return Ok(());
        }
        match self.undo(undo.get()) {
            Ok(()) => Ok(()),
            Err((undo, error)) => Err((KeptUndo::new(undo), error)),
        }
    }

    /// Takes a step back that replaced a number or wrote to no cell, if the change is that of such a step. Else nothing has
    /// changed.
    fn undo_ints(&mut self, undo: &KeptUndo) -> bool
        requires { Fits undo.now self.old.content }
        ensures back { IsTrue result → self.new.content ≡ undone undo.now self.old.content }
        ensures room { self.new.room ≡ self.old.room }
        ensures needs { IsTrue result → (need undo.now ≡ 0) × (entered undo.now ≡ 0) }
        ensures otherwise { IsFalse result → self.new.content ≡ self.old.content }
    {
        match &undo.packed {
            Packed::Same(How::Went, spot) => {
                self.step_back_to(*spot);
                true
            }
            Packed::Int(How::Went, spot, slot, n) => {
                put(&mut self.top.cells, *slot as usize, Some(Value::Int(*n)));
                self.step_back_to(*spot);
                true
            }
            _ => false,
        }
    }

    /// Stands where it stood, before a step of its own.
    fn step_back_to(&mut self, spot: Spot)
        requires { 0 < self.old.content.steps }
        ensures content { self.new.content ≡ before_step self.old.content (on_innermost (at_spot spot) self.old.content.frames) }
        ensures room { self.new.room ≡ self.old.room }
    {
        self.top.stand_at(spot);
        self.steps -= 1;
    }

    /// Takes a change back, for which there is room.
    fn undo_step(&mut self, undo: GoUndo)
        requires fits { Fits undo self.old.content }
        requires room { need undo ≤ self.old.room }
        ensures content { self.new.content ≡ undone undo self.old.content }
        ensures spends { self.old.room + entered undo ≤ self.new.room + need undo }
    {
        match undo {
            GoUndo::Went(function, undo) => {
                self.top.undo_in(function, undo);
                self.steps -= 1;
            }
            GoUndo::Printed(spot) => {
                self.top.stand_at(spot);
                drop_line(&mut self.text);
                self.steps -= 1;
            }
            GoUndo::Entered(spot) => self.undo_call(spot),
            GoUndo::Left(left) => self.undo_return(left),
            GoUndo::Made(function, undo) => {
                self.top.undo_in(function, undo);
                self.steps -= 1;
                self.channels -= 1;
            }
            GoUndo::Began(spot) => {
                self.top.stand_at(spot);
                self.steps -= 1;
                self.children -= 1;
            }
            GoUndo::Met(met) => self.undo_meeting(met),
            GoUndo::Parked(spot) => {
                self.top.stand_at(spot);
                self.status = Status::Ready;
                self.steps -= 1;
            }
            GoUndo::Finished(frame) => {
                self.status = Status::Ready;
                self.top = Box::into_inner(frame);
                self.steps -= 1;
            }
            GoUndo::Faulted(spot) => {
                self.top.stand_at(spot);
                self.steps -= 1;
            }
            GoUndo::Retried(status) => self.status = status,
        }
    }

    /// Takes back that it called a function.
    fn undo_call(&mut self, spot: Spot)
        requires { Fits (GoUndo.Entered spot) self.old.content }
        ensures content { self.new.content ≡ undone (GoUndo.Entered spot) self.old.content }
        ensures spends { self.old.room + 1 ≤ self.new.room }
    {
        self.top = self.below.pop().unwrap();
        self.top.stand_at(spot);
        self.steps -= 1;
    }

    /// Takes back that a function returned to its caller, for which there is room.
    fn undo_return(&mut self, left: Box<Left>)
        requires fits { Fits (GoUndo.Left left) self.old.content }
        requires room { 1 ≤ self.old.room }
        ensures content { self.new.content ≡ undone (GoUndo.Left left) self.old.content }
        ensures spends { self.old.room ≤ self.new.room + 1 }
    {
        let Left { frame, caller } = Box::into_inner(left);
        self.top.undo(caller);
        let caller = mem::replace(&mut self.top, frame);
        self.below.push_reserved(caller);
        self.steps -= 1;
    }

    /// Takes back that a partner met it.
    fn undo_meeting(&mut self, met: Box<Met>)
        requires { Fits (GoUndo.Met met) self.old.content }
        ensures content { self.new.content ≡ undone (GoUndo.Met met) self.old.content }
        ensures spends { self.old.room ≤ self.new.room }
    {
        let Met {
            status,
            function,
            frame,
        } = Box::into_inner(met);
        self.top.undo_in(function, frame);
        self.status = status;
    }
}
