//! The builder of a job.
ghost use Rattle.std.specs.Prelude.{◌≡◌, ◌<◌, true, [], None, Some, IfOk, IfErr, OnOk, OnErr, length};
ghost use Rattle.job_lang.proofs.ExpandLemmas.Numbering.{Names};
ghost use Rattle.limits.specs.declared.TheConstants.{MOST_LEAVES, MOST_OPEN_BLOCKS};
ghost use Rattle.job_builder.specs.Drafts.{built, closed, may_use, may_work_with, next_handle, nothing, object as object_of, opened, with_leaf};
ghost use Rattle.job_builder.specs.Refusals.{IsNoLeaf, IsNoUse, IsNoWork, IsNotClosed, IsNotOpened, IsUnfinished};
ghost use Rattle.named_objects.specs.Objects.{IsSpelled, IsSpelledName, named_in, object_in};
ghost use Rattle.seq_objects.specs.Objects.{number_of};
ghost use Rattle.seq_objects.specs.Parts.{kind_of};
ghost use Rattle.seq_objects.specs.declared.act.Act.TheVariants as acts;
ghost use Rattle.sp_order.specs.Sources.{has_argument, with_argument as argued};

use crate::error::BuildError;
use job_names::Name;
use joined_shapes::{OpenBlocks, Order};
use leaf_handles::Handle;
use limits::{MOST_LEAVES, MOST_OPEN_BLOCKS};
use named_objects::{Numbered, Object, number_objects};
use seq_objects::{Act, Op};
use sp_order::Job;
use std::alloc::Global;
use std::marker::Model;

/// A job while it is built, leaf by leaf. Contracts see a `Draft`.
#[derive(Drop)]
pub struct Builder {
    alloc: Global,
    job: u32,
    blocks: OpenBlocks,
    acts: Vec<Act>,
    sources: Vec<Option<u32>>,
    objects: Vec<Option<Object>>,
}

impl Model for Builder {
    ghost use Rattle.job_builder.specs.Drafts.{Draft};
    ghost use Rattle.job_builder.specs.Codes.{coded_draft};

    ghost Value = { Draft };

    ghost coded = { coded_draft };

    ghost use Rattle.job_builder.specs.Code.Kept.{draft_of, IsDraft};

    ghost view = { λ b. draft_of b.job b.blocks b.acts.items b.sources.items b.objects.items };

    ghost invariant = { λ b. IsDraft (draft_of b.job b.blocks b.acts.items b.sources.items b.objects.items) };
}

/// The object of the operation's kind with this name.
fn named(op: Op, name: Name) -> Object
    ensures { object_in result ≡ object_of (kind_of op) name }
{
    Object {
        kind: op.kind(),
        name,
    }
}

impl Builder {
    ghost use Rattle.job_builder.specs.Code.Kept.{MayAdd};

    /// A job without leaves, outside every block: its items run in series. Where a program builds several jobs at a time,
    /// a number of its own keeps the handles of each job apart from those of the others. Memory: none.
    pub fn new(alloc: Global, job: u32) -> Builder
        ensures { result ≡ nothing job }
    {
        Builder {
            alloc,
            job,
            blocks: OpenBlocks::new(alloc),
            acts: Vec::new(alloc),
            sources: Vec::new(alloc),
            objects: Vec::new(alloc),
        }
    }

    /// Opens a block, whose items run in this order.
    pub fn open(&mut self, order: Order) -> Result<(), BuildError>
        ensures ok { OnOk result (self.new ≡ opened self.old order) }
        ensures room { OnOk result (length self.old.blocks.around < MOST_OPEN_BLOCKS) }
        ensures err { OnErr result (self.new ≡ self.old) }
        ensures cause { IfErr result (IsNotOpened self.old) }
    {
        if self.blocks.open_count() >= MOST_OPEN_BLOCKS as usize {
            return Err(BuildError::Nesting);
        }
        self.blocks.open(order)?;
        Ok(())
    }

    /// Closes the innermost block, which becomes one item of the block around it; without items it becomes none.
    pub fn close(&mut self) -> Result<(), BuildError>
        ensures ok { OnOk result (self.new ≡ closed self.old) }
        ensures some { OnOk result (0 < length self.old.blocks.around) }
        ensures err { OnErr result (self.new ≡ self.old) }
        ensures cause { IfErr result (IsNotClosed self.old) }
    {
        if self.blocks.open_count() == 0 {
            return Err(BuildError::NoBlock);
        }
        self.blocks.close()?;
        Ok(())
    }

    /// Adds a leaf to the innermost block.
    fn add(
        &mut self,
        act: Act,
        source: Option<u32>,
        object: Option<Object>,
    ) -> Result<Handle, BuildError>
        requires { MayAdd self.old act source (named_in object) }
        ensures ok { OnOk result (self.new ≡ with_leaf self.old act source (named_in object)) }
        ensures handle { IfOk result (λ handle. handle ≡ next_handle self.old) }
        ensures room { OnOk result (length self.old.acts < MOST_LEAVES) }
        ensures err { OnErr result (self.new ≡ self.old) }
        ensures cause { IfErr result (IsNoLeaf self.old) }
    {
        let leaf = self.acts.len();
        if leaf >= MOST_LEAVES as usize {
            return Err(BuildError::Full);
        }
        self.acts.reserve(1)?;
        self.sources.reserve(1)?;
        self.objects.reserve(1)?;
        self.blocks.leaf()?;
        self.acts.push_reserved(act);
        self.sources.push_reserved(source);
        self.objects.push_reserved(object);
        Ok(Handle::of(self.job, leaf as u32))
    }

    /// Adds a leaf that works for this number of steps.
    pub fn work(&mut self, steps: u32) -> Result<Handle, BuildError>
        ensures ok { OnOk result (self.new ≡ with_leaf self.old (acts.Work steps) None None) }
        ensures handle { IfOk result (λ handle. handle ≡ next_handle self.old) }
        ensures room { OnOk result (length self.old.acts < MOST_LEAVES) }
        ensures err { OnErr result (self.new ≡ self.old) }
        ensures cause { IfErr result (IsNoLeaf self.old) }
    {
        self.add(Act::Work(steps), None, None)
    }

    /// Adds a call, of the object of its kind without a name.
    pub fn call(&mut self, op: Op) -> Result<Handle, BuildError>
        requires { number_of op ≡ 0 }
        ensures ok { OnOk result (self.new ≡ with_leaf self.old (acts.Call op) None None) }
        ensures handle { IfOk result (λ handle. handle ≡ next_handle self.old) }
        ensures room { OnOk result (length self.old.acts < MOST_LEAVES) }
        ensures err { OnErr result (self.new ≡ self.old) }
        ensures cause { IfErr result (IsNoLeaf self.old) }
    {
        self.add(Act::Call(op), None, None)
    }

    /// Adds a call, of the object of its kind with this name.
    pub fn call_on(&mut self, name: Name, op: Op) -> Result<Handle, BuildError>
        requires number { number_of op ≡ 0 }
        requires name { IsSpelledName name }
        ensures ok { OnOk result
            (self.new ≡ with_leaf self.old (acts.Call op) None (Some (object_of (kind_of op) name))) }
        ensures handle { IfOk result (λ handle. handle ≡ next_handle self.old) }
        ensures room { OnOk result (length self.old.acts < MOST_LEAVES) }
        ensures err { OnErr result (self.new ≡ self.old) }
        ensures cause { IfErr result (IsNoLeaf self.old) }
    {
        self.add(Act::Call(op), None, Some(named(op, name)))
    }

    /// Whether a call here may take the value of this leaf.
    pub fn may_use(&self, handle: Handle) -> bool
        ensures { result ≡ may_use self.now handle }
    {
        if !handle.is_of(self.job) {
            return false;
        }
        match self.acts.get(handle.leaf() as usize) {
            Some(_) => self.blocks.shows(handle.leaf()),
            None => false,
        }
    }

    /// Whether a leaf of work here may take the value of this leaf: it is that of a reply, and a call may take it.
    pub fn may_work_with(&self, handle: Handle) -> bool
        ensures { result ≡ may_work_with self.now handle }
    {
        match self.acts.get(handle.leaf() as usize) {
            Some(Act::Call(_)) => self.may_use(handle),
            _ => false,
        }
    }

    /// Adds a leaf that works on the reply of an earlier call: its number is the low 32 bits of the reply's value.
    pub fn work_with(&mut self, used: Handle) -> Result<Handle, BuildError>
        ensures ok { OnOk result (self.new ≡ with_leaf self.old (acts.Work 0) (Some used.leaf) None) }
        ensures handle { IfOk result (λ handle. handle ≡ next_handle self.old) }
        ensures room { OnOk result (length self.old.acts < MOST_LEAVES) }
        ensures visible { OnOk result (may_work_with self.old used ≡ true) }
        ensures err { OnErr result (self.new ≡ self.old) }
        ensures cause { IfErr result (IsNoWork self.old used) }
    {
        if !self.may_work_with(used) {
            return Err(BuildError::NotVisible);
        }
        self.add(Act::Work(0), Some(used.leaf()), None)
    }

    /// Adds a call with the value of a leaf as its argument, of the object of its kind with this name or without one.
    fn use_value(
        &mut self,
        op: Op,
        object: Option<Object>,
        used: Handle,
    ) -> Result<Handle, BuildError>
        requires argument { has_argument op ≡ true }
        requires object { Names (acts.Call op) (named_in object) }
        requires spelled { IsSpelled (named_in object) }
        ensures ok { OnOk result
            (self.new ≡ with_leaf self.old (acts.Call (argued op 0)) (Some used.leaf) (named_in object)) }
        ensures handle { IfOk result (λ handle. handle ≡ next_handle self.old) }
        ensures room { OnOk result (length self.old.acts < MOST_LEAVES) }
        ensures visible { OnOk result (may_use self.old used ≡ true) }
        ensures err { OnErr result (self.new ≡ self.old) }
        ensures cause { IfErr result (IsNoUse self.old used) }
    {
        if !self.may_use(used) {
            return Err(BuildError::NotVisible);
        }
        self.add(Act::Call(op.with_argument(0)), Some(used.leaf()), object)
    }

    /// Adds a call of the object of its kind without a name. Its argument is the low 32 bits of the value of an
    /// earlier leaf, whatever number the operation carries.
    pub fn call_with(&mut self, op: Op, used: Handle) -> Result<Handle, BuildError>
        requires number { number_of op ≡ 0 }
        requires argument { has_argument op ≡ true }
        ensures ok { OnOk result
            (self.new ≡ with_leaf self.old (acts.Call (argued op 0)) (Some used.leaf) None) }
        ensures handle { IfOk result (λ handle. handle ≡ next_handle self.old) }
        ensures room { OnOk result (length self.old.acts < MOST_LEAVES) }
        ensures visible { OnOk result (may_use self.old used ≡ true) }
        ensures err { OnErr result (self.new ≡ self.old) }
        ensures cause { IfErr result (IsNoUse self.old used) }
    {
        self.use_value(op, None, used)
    }

    /// Adds a call of the object of its kind with this name. Its argument is the low 32 bits of the value of an
    /// earlier leaf, whatever number the operation carries.
    pub fn call_on_with(&mut self, name: Name, op: Op, used: Handle) -> Result<Handle, BuildError>
        requires number { number_of op ≡ 0 }
        requires argument { has_argument op ≡ true }
        requires name { IsSpelledName name }
        ensures ok { OnOk result
            (self.new
            ≡ with_leaf self.old (acts.Call (argued op 0)) (Some used.leaf)
            (Some (object_of (kind_of op) name))) }
        ensures handle { IfOk result (λ handle. handle ≡ next_handle self.old) }
        ensures room { OnOk result (length self.old.acts < MOST_LEAVES) }
        ensures visible { OnOk result (may_use self.old used ≡ true) }
        ensures err { OnErr result (self.new ≡ self.old) }
        ensures cause { IfErr result (IsNoUse self.old used) }
    {
        self.use_value(op, Some(named(op, name)), used)
    }

    /// The job. All blocks must be closed. The builder stays, and may go on.
    pub fn finish(&self) -> Result<Job, BuildError>
        ensures ok { IfOk result (λ job. job ≡ built self.now) }
        ensures closed { OnOk result (self.now.blocks.around ≡ []) }
        ensures cause { IfErr result (IsUnfinished self.now) }
    {
        if self.blocks.open_count() > 0 {
            return Err(BuildError::Unclosed);
        }
        let shape = self.blocks.shape()?;
        let acts = Vec::from_slice(self.alloc, self.acts.as_slice())?;
        let sources = Vec::from_slice(self.alloc, self.sources.as_slice())?;
        let Numbered { numbers, names } = number_objects(self.alloc, self.objects.as_slice())?;
        let job = Job::with_sources(shape, acts, sources);
        Ok(Job::with_objects(job, numbers, names))
    }
}
