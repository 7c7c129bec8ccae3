// A buffer that keeps the token of its open region.
ghost use Rattle.std.specs.Prelude.{◌≡◌, true, IfOk};
ghost use Rattle.buffer.specs.View.{view};
ghost use Rattle.model.specs.State.{empty};
ghost use Rattle.model.specs.Steps.{StartPatchable, EndPatchable, step};
ghost use Rattle.replay.specs.Calls.{answer_of, call_of, is_plain};
ghost use Rattle.replay.specs.Tokens.{Held, Held-prop};

use crate::calls::{Answer, Call, Reply};
use buffer::buffer::MachBuffer;
use buffer::regions::OpenPatchRegion;
use isa::InstructionSet;
use model::Refusal;
use std::alloc::{AllocError, Global};

/// A buffer, with the token of its open region.
pub struct Session<S> {
    pub buffer: MachBuffer<S>,
    pub token: Option<OpenPatchRegion>,
    pub ghost held: { Held token (view buffer) } by { Held-prop token (view buffer) },
}

// A call that opens and closes no region.
fn make_plain<S: InstructionSet + Drop>(buffer: &mut MachBuffer<S>, call: Call) -> Answer
    requires { is_plain call ≡ true }
    ensures tables { (answer_of result, view buffer.new) ≡ step (S.meaning buffer.old.set) (view buffer.old) (call_of call.entry) }
    ensures set { buffer.new.set ≡ buffer.old.set }
{
    match call {
        Call::GetLabel => buffer.get_label().map(Reply::Number),
        Call::BindLabel { label, skip } => buffer.bind_label(label, skip).map(|()| Reply::Granted),
        Call::PutData { trap, bytes } => buffer.put_data(trap, bytes).map(Reply::Number),
        Call::AlignTo { n } => buffer.align_to(n).map(|()| Reply::Granted),
        Call::UseLabelAtOffset { label, kind, bytes } => buffer
            .use_label_at_offset(label, kind, bytes)
            .map(Reply::Number),
        Call::AddUncondBranch { label, kind, bytes } => buffer
            .add_uncond_branch(label, kind, bytes)
            .map(Reply::Number),
        Call::AddCondBranch {
            label,
            kind,
            bytes,
            inverted,
        } => buffer
            .add_cond_branch(label, kind, bytes, inverted)
            .map(Reply::Number),
        Call::DeferTrap { trap } => buffer.defer_trap(trap).map(Reply::Number),
        Call::RegisterConstant { size, align } => {
            buffer.register_constant(size, align).map(Reply::Number)
        }
        Call::GetLabelForConstant { number } => {
            buffer.get_label_for_constant(number).map(Reply::Number)
        }
        Call::OptimizeBranches { skip } => buffer.optimize_branches(skip).map(|()| Reply::Granted),
        Call::StartPatchable | Call::EndPatchable => unreachable(),
        Call::CurOffset => Ok(Reply::Number(buffer.cur_offset())),
        Call::ResolveLabelOffset { label } => buffer.resolve_label_offset(label).map(Reply::Number),
        Call::IslandNeeded { distance } => Ok(Reply::YesNo(buffer.island_needed(distance))),
    }
}

// Each call says that the set stays: no type can say of a call what it leaves as it was.
impl<S: InstructionSet + Drop> Session<S> {
    /// A new buffer, with no region open.
    pub fn new(heap: Global, set: S) -> Result<Session<S>, AllocError>
        ensures { IfOk result (λ s. (view s.buffer ≡ empty) × (s.buffer.set ≡ set)) }
    {
        Ok(Session {
            buffer: MachBuffer::new(heap, set)?,
            token: None,
        })
    }

    // Opens a region, unless its token is held already.
    fn open_region(&mut self) -> Answer
        ensures tables { (answer_of result, view self.new.buffer) ≡ step (S.meaning self.old.buffer.set) (view self.old.buffer) StartPatchable }
        ensures set { self.new.buffer.set ≡ self.old.buffer.set }
    {
        let region = self.buffer.start_patchable()?;
        let number = region.number;
        match self.token.replace(region) {
            None => Ok(Reply::Number(number)),
            Some(_held) => unreachable(),
        }
    }

    // Closes the open region, if its token is held.
    fn close_region(&mut self) -> Answer
        ensures tables { (answer_of result, view self.new.buffer) ≡ step (S.meaning self.old.buffer.set) (view self.old.buffer) EndPatchable }
        ensures set { self.new.buffer.set ≡ self.old.buffer.set }
    {
        let Some(region) = self.token.take() else {
            return Err(Refusal::RegionOpen);
        };
        match self.buffer.end_patchable(region) {
            Ok(closed) => Ok(Reply::Closed(closed.place)),
            Err(_) => unreachable(),
        }
    }

    /// Makes a call. Closing a region closes the open one.
    pub fn make(&mut self, call: Call) -> Answer
        ensures tables { (answer_of result, view self.new.buffer) ≡ step (S.meaning self.old.buffer.set) (view self.old.buffer) (call_of call.entry) }
        ensures set { self.new.buffer.set ≡ self.old.buffer.set }
    {
        match call {
            Call::StartPatchable => self.open_region(),
            Call::EndPatchable => self.close_region(),
            _ => make_plain(&mut self.buffer, call),
        }
    }

    /// Ends with the buffer. A region that is still open is closed first.
    // Not a `Drop`: its impl could have no bound that the struct lacks, and closing asks that S be a set.
    pub fn let_go(self) {
        let Session { mut buffer, token } = self;
        let Some(region) = token else {
            return;
        };
        match buffer.end_patchable(region) {
            Ok(_) => {}
            Err(_) => unreachable(),
        }
    }
}
