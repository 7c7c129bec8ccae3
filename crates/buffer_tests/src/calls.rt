// Calls and answers as values, so that a test is a list of them.
ghost use Rattle.std.specs.Iterator.{IsFinite};

use aarch64::AArch64;
use buffer::buffer::MachBuffer;
use buffer::regions::OpenPatchRegion;
use isa::InstructionSet;
use model::Refusal;
use riscv::RiscV;
use std::num::TryFromIntError;
use std::process::Abort;
use std::test::Fail;

/// A call of the buffer or a question to it. Bytes are given as words, lowest byte first, some of them by their number.
// Calls of its own: the buffer is tested without what stands above it.
#[derive(Clone, Copy)]
pub enum Call {
    Label,
    Bind(u32),
    BindSkip(u32),
    /// the label and so many in all, counting up
    BindEach(u32, u32),
    /// a trap code, and how many bytes, each 9
    Put(u32, u32),
    Align(u32),
    /// a label, a kind and a word
    Use(u32, u32, u32),
    Jump(u32, u32, u32),
    /// a label, a kind, a word and its inversion
    Branch(u32, u32, u32, u32),
    /// as many bytes of the word, with zeros after it, in front
    UseOf(u32, u32, u32, u32),
    JumpOf(u32, u32, u32, u32),
    /// as many bytes of each of the words in front
    BranchOf(u32, u32, u32, u32, u32, u32),
    Defer(u32),
    /// a size and an alignment
    Register(u32, u32),
    Constant(u32),
    /// the constant and so many in all, counting up, where the labels count up too; the last label
    ConstantEach(u32, u32),
    Simplify,
    SimplifySkip,
    /// opens a region, and answers its number
    Open,
    /// closes the open region, and answers its length
    Close,
    /// the call before so many times more, where each answer is so much greater than the last
    Again(u32, u32),
    /// the current offset
    Offset,
    /// where a label is
    Resolve(u32),
    /// 1 if an island is needed
    Needed(u32),
    /// how many uses wait
    Waiting,
    /// how many labels there are
    Labels,
    /// how many traps are on record
    Traps,
    /// the offset of a trap on record
    TrapAt(u32),
    /// the code of a trap on record
    TrapCode(u32),
    /// how many constants are placed
    Placed,
    /// the byte of the code at an offset
    Byte(u32),
    /// the word of the code at an offset
    Word(u32),
}

// Refusals by number, as the tests expect them; no refusal has the number 0.
/// What is answered: a number, 0 where nothing more is said, or the number of a refusal, 0 for what no buffer answers.
pub type Answer = Result<u32, u32>;

/// Where an unbound label is.
pub const UNBOUND: u32 = 4294967295;

/// Why a call or a question has no number for an answer.
#[derive(Clone, Copy)]
pub enum Failure {
    Refused(Refusal),
    /// no buffer answers so
    NoAnswer,
}

impl From<Refusal> for Failure {
    fn from(refusal: Refusal) -> Failure {
        Failure::Refused(refusal)
    }
}

impl From<TryFromIntError> for Failure {
    fn from(_error: TryFromIntError) -> Failure {
        Failure::NoAnswer
    }
}

impl From<Failure> for u32 {
    fn from(failure: Failure) -> u32 {
        match failure {
            Failure::Refused(refusal) => refusal.into(),
            Failure::NoAnswer => 0,
        }
    }
}

static BYTES: [u8; 65537] = [9; 65537];

// The bytes in front, so many of them, or all where there are fewer.
fn front(bytes: &[u8], len: u32) -> &[u8] {
    &bytes[..bytes.len().min(len as usize)]
}

// A word with zeros after it.
fn in_eight(word: u32) -> [u8; 8] {
    u64::from(word).to_le_bytes()
}

fn nth<T: Copy>(rows: &[T], n: u32) -> Result<T, Failure> {
    rows.get(n as usize).copied().ok_or(Failure::NoAnswer)
}

fn word_at(code: &[u8], at: u32) -> Result<u32, Failure> {
    match code.get(at as usize..at as usize + 4) {
        Some([a, b, c, d]) => Ok(u32::from_le_bytes([*a, *b, *c, *d])),
        _ => Err(Failure::NoAnswer),
    }
}

// Asks a question.
fn ask<S: InstructionSet + Drop>(buffer: &MachBuffer<S>, call: Call) -> Result<u32, Failure> {
    Ok(match call {
        Call::Offset => buffer.cur_offset(),
        Call::Resolve(label) => buffer.resolve_label_offset(label)?,
        Call::Needed(distance) => u32::from(buffer.island_needed(distance)),
        Call::Waiting => buffer.waiting_len(),
        Call::Labels => buffer.labels_len(),
        Call::Traps => u32::try_from(buffer.traps().len())?,
        Call::TrapAt(n) => nth(buffer.traps(), n)?.offset,
        Call::TrapCode(n) => nth(buffer.traps(), n)?.code,
        Call::Placed => u32::try_from(buffer.placed_constants().len())?,
        Call::Byte(at) => u32::from(nth(buffer.code(), at)?),
        Call::Word(at) => word_at(buffer.code(), at)?,
        _ => return Err(Failure::NoAnswer),
    })
}

// Adds bytes that refer to a label.
fn refer<S: InstructionSet + Drop>(buffer: &mut MachBuffer<S>, call: Call) -> Result<u32, Failure> {
    Ok(match call {
        Call::Use(label, kind, word) => {
            buffer.use_label_at_offset(label, kind, &word.to_le_bytes())?
        }
        Call::Jump(label, kind, word) => {
            buffer.add_uncond_branch(label, kind, &word.to_le_bytes())?
        }
        Call::Branch(label, kind, word, inverted) => buffer.add_cond_branch(
            label,
            kind,
            &word.to_le_bytes(),
            &inverted.to_le_bytes(),
        )?,
        Call::UseOf(len, label, kind, word) => {
            buffer.use_label_at_offset(label, kind, front(&in_eight(word), len))?
        }
        Call::JumpOf(len, label, kind, word) => {
            buffer.add_uncond_branch(label, kind, front(&in_eight(word), len))?
        }
        Call::BranchOf(len, other, label, kind, word, inverted) => buffer.add_cond_branch(
            label,
            kind,
            front(&in_eight(word), len),
            front(&in_eight(inverted), other),
        )?,
        _ => ask(buffer, call)?,
    })
}

fn bind_each<S: InstructionSet + Drop>(
    buffer: &mut MachBuffer<S>,
    first: u32,
    n: u32,
) -> Result<(), Refusal> {
    for label in first..first.saturating_add(n) {
        buffer.bind_label(label, false)?;
    }
    Ok(())
}

// Makes a call that opens and closes no region.
fn make<S: InstructionSet + Drop>(buffer: &mut MachBuffer<S>, call: Call) -> Result<u32, Failure> {
    Ok(match call {
        Call::Label => buffer.get_label()?,
        Call::Bind(label) => buffer.bind_label(label, false).map(|()| 0)?,
        Call::BindSkip(label) => buffer.bind_label(label, true).map(|()| 0)?,
        Call::BindEach(first, n) => bind_each(buffer, first, n).map(|()| 0)?,
        Call::Put(trap, len) => buffer.put_data(trap, front(&BYTES, len))?,
        Call::Align(n) => buffer.align_to(n).map(|()| 0)?,
        Call::Defer(trap) => buffer.defer_trap(trap)?,
        Call::Register(size, align) => buffer.register_constant(size, align)?,
        Call::Constant(number) => buffer.get_label_for_constant(number)?,
        Call::Simplify => buffer.optimize_branches(false).map(|()| 0)?,
        Call::SimplifySkip => buffer.optimize_branches(true).map(|()| 0)?,
        _ => refer(buffer, call)?,
    })
}

// Makes calls, of which each must be answered by so much more than the one before. The answer is the last.
fn rising<S: InstructionSet + Drop, I: Iterator<Item = Call> + Drop>(
    buffer: &mut MachBuffer<S>,
    calls: I,
    before: u32,
    stride: u32,
) -> Result<u32, Failure>
    requires { I.can_next calls × IsFinite (I.remaining calls) }
{
    let mut last = before;
    for call in calls {
        let answer = make(buffer, call)?;
        if answer != last.wrapping_add(stride) {
            return Err(Failure::NoAnswer);
        }
        last = answer;
    }
    Ok(last)
}

fn request_each<S: InstructionSet + Drop>(
    buffer: &mut MachBuffer<S>,
    first: u32,
    n: u32,
) -> Result<u32, Failure> {
    let label = buffer.get_label_for_constant(first)?;
    let others = first.saturating_add(1)..first.saturating_add(n);
    rising(buffer, others.map(Call::Constant), label, 1)
}

// Keeps a token. One that was kept before is taken apart.
fn keep(token: &mut Option<OpenPatchRegion>, region: OpenPatchRegion) {
    match token.replace(region) {
        None => {}
        Some(OpenPatchRegion { number: _ }) => {}
    }
}

/// Opens a region, and keeps its token.
pub fn open<S: InstructionSet + Drop>(
    buffer: &mut MachBuffer<S>,
    token: &mut Option<OpenPatchRegion>,
) -> Result<u32, Failure> {
    let region = buffer.start_patchable()?;
    let number = region.number;
    keep(token, region);
    Ok(number)
}

fn close<S: InstructionSet + Drop>(
    buffer: &mut MachBuffer<S>,
    token: &mut Option<OpenPatchRegion>,
) -> Result<u32, Failure> {
    let Some(region) = token.take() else {
        return Err(Failure::NoAnswer);
    };
    match buffer.end_patchable(region) {
        Ok(closed) => Ok(closed.place.len),
        Err((refusal, region)) => {
            keep(token, region);
            Err(Failure::Refused(refusal))
        }
    }
}

// Takes a token apart. No list of calls should leave one.
fn is_left(token: Option<OpenPatchRegion>) -> bool {
    match token {
        None => false,
        Some(OpenPatchRegion { number: _ }) => true,
    }
}

/// Makes each call of a list, which must be answered as it says. It closes each region that it opens.
pub fn run<S: InstructionSet + Drop>(
    rt: &impl Abort,
    buffer: &mut MachBuffer<S>,
    steps: &[(Call, Answer)],
) {
    let mut token = None;
    let mut last = (Call::Offset, 0);
    for (step, (call, want)) in steps.iter().enumerate() {
        let answered = match *call {
            Call::Again(times, stride) => {
                rising(buffer, (0..times).map(|_| last.0), last.1, stride)
            }
            Call::ConstantEach(first, n) => request_each(buffer, first, n),
            Call::Open => open(buffer, &mut token),
            Call::Close => close(buffer, &mut token),
            _ => make(buffer, *call),
        };
        let got = answered.map_err(u32::from);
        assert_eq!(rt; (step, got), (step, *want));
        if let Ok(answer) = got {
            last = (*call, answer);
        }
    }
    assert!(rt; !is_left(token));
}

/// The calls on a new buffer of a set.
pub fn on<S: InstructionSet + Drop>(
    rt: &(impl Abort + AllocGlobal),
    set: S,
    steps: &[(Call, Answer)],
) -> Result<(), Fail> {
    let mut buffer = MachBuffer::new(rt.alloc(), set)?;
    run(rt, &mut buffer, steps);
    Ok(())
}

/// The calls on new buffers of both sets.
pub fn on_both(rt: &(impl Abort + AllocGlobal), steps: &[(Call, Answer)]) -> Result<(), Fail> {
    on(rt, AArch64, steps)?;
    on(rt, RiscV, steps)
}
